// Printing: what the calendar makes of one list of exceptions. Each line is gathered first and written with one call.
ghost use Rattle.std.specs.Prelude.{◌≡◌, true};
ghost use Rattle.days.specs.Days.{rising};

use arrayvec::ArrayVec;
use months::Month;
use std::io::{self, Write};

// A line is gathered in fixed room: the longest has a word and seven numbers.
type Line = ArrayVec<u8, 256>;

// Adds a space and a day, or a dash for none.
fn push_day(line: &mut Line, day: Option<u64>) -> io::Result<()> {
    match day {
        Some(t) => write!(line, " {t}"),
        None => write!(line, " -"),
    }
}

// Adds what is listed, each code after a space, or a dash if a listed month's settlement day is not in the calendar.
fn push_listing(line: &mut Line, listing: Option<[u64; 6]>) -> io::Result<()> {
    let Some(codes) = listing else {
        return write!(line, " -");
    };
    for code in codes {
        write!(line, " {code}")?;
    }
    Ok(())
}

// A month's code, its settlement day and its last trading day.
fn print_month<W: Write>(output: &mut W, exceptions: &[u64], month: Month) -> io::Result<()>
    requires { rising exceptions.now ≡ true }
{
    let code = month.code();
    let mut line = Line::new();
    write!(line, "month {code}")?;
    push_day(&mut line, calendar::settlement_of(exceptions, code))?;
    push_day(&mut line, calendar::last_trading_of(exceptions, code))?;
    writeln!(line)?;
    output.write_all(line.as_slice())
}

// What is listed on a day.
fn print_listing<W: Write>(output: &mut W, exceptions: &[u64], t: u64) -> io::Result<()>
    requires { rising exceptions.now ≡ true }
{
    let mut line = Line::new();
    write!(line, "listed {t}")?;
    push_listing(&mut line, calendar::listed_on(exceptions, t))?;
    writeln!(line)?;
    output.write_all(line.as_slice())
}

// The months from the one before the calendar's first to the one after its last.
fn print_months<W: Write>(output: &mut W, exceptions: &[u64]) -> io::Result<()>
    requires { rising exceptions.now ≡ true }
{
    for number in Month::FIRST - 1..=Month::LAST + 1 {
        print_month(output, exceptions, Month { number })?;
    }
    Ok(())
}

// What is listed on each working day from one day to another.
fn print_listings<W: Write>(
    output: &mut W,
    exceptions: &[u64],
    first: u64,
    last: u64,
) -> io::Result<()>
    requires { rising exceptions.now ≡ true }
{
    for t in first..=last {
        if days::is_working(exceptions, t) {
            print_listing(output, exceptions, t)?;
        }
    }
    Ok(())
}

// An accepted calendar: its months, and what is listed in the years 2023 and 2029.
fn print_accepted<W: Write>(output: &mut W, exceptions: &[u64]) -> io::Result<()>
    requires { rising exceptions.now ≡ true }
{
    print_months(output, exceptions)?;
    print_listings(output, exceptions, 1096, 1460)?;
    print_listings(output, exceptions, 3288, 3652)
}

// The k-th list: its heading, and what is wrong with the exceptions, or what the calendar makes of them.
pub(crate) fn print_list<W: Write>(output: &mut W, k: u64, exceptions: &[u64]) -> io::Result<()> {
    let mut heading = Line::new();
    writeln!(heading, "list {k}")?;
    output.write_all(heading.as_slice())?;
    if !days::are_rising(exceptions) {
        return output.write_all(b"not rising\n");
    }
    if !days::is_accepted(exceptions) {
        return output.write_all(b"refused\n");
    }
    print_accepted(output, exceptions)
}
