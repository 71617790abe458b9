// What is said of a line that is no record: its number, what was expected, and a line as it should be.
ghost use Rattle.std.specs.Prelude.{◌<◌};
ghost use Rattle.fields.specs.Fields.{count};
ghost use Rattle.parsing.specs.Parsing.{Names};

use decimal::digits_of;
use parsing::LineError;
use std::io::Write;
use wording::{Style, put_label, style_of};

// No label is longer.
const LABEL: usize = 12;

// Writes a text where errors are said. A write that fails is passed over.
fn say<E: Write>(errors: &mut E, text: &[u8]) {
    let _ = errors.write_all(text);
}

// Says a number.
fn say_number<E: Write>(errors: &mut E, number: u64) {
    let mut digits = [0u8; 20];
    let count = digits_of(number, &mut digits);
    say(errors, &digits[..count]);
}

// Says which line it is. What was expected follows after a space.
fn say_line<E: Write>(errors: &mut E, number: u64) {
    say(errors, b"line ");
    say_number(errors, number);
    say(errors, b": expected");
}

// Says how a line of a kind looks.
fn say_example<E: Write>(errors: &mut E, kind: u64) {
    say(errors, b", as in: ");
    match kind {
        0 => say(
            errors,
            b"start reference 3000000 multiplier 100 exceptions 2 5 17\n",
        ),
        1 => say(errors, b"enrol 1000001 limit 10 tolerance 0\n"),
        2 => say(errors, b"pay-in 1000001 amount 100000000\n"),
        3 => say(errors, b"pay-out 1000001 amount 100000000\n"),
        4 => say(errors, b"release 1000001 amount 100000000\n"),
        5 => say(errors, b"special 1000001 amount 100000000\n"),
        6 => say(errors, b"limits 1000001 limit 10 tolerance 0\n"),
        7 => say(
            errors,
            b"open 1339 rates 2.3000% 2.3000% 2.3000% 2.3000% 2.3000% 2.3000% margins 3000000 3000000 3000000 3000000 3000000 3000000\n",
        ),
        8 => say(
            errors,
            b"trade 09:30:00 2312 buyer 1000001 seller 1000002 lots 4 rate 2.3100%\n",
        ),
        9 => say(errors, b"quote 15:45:00 2312 bid 2.3050%\n"),
        10 => say(errors, b"settle\n"),
        11 => say(errors, b"refresh\n"),
        _ => say(errors, b"close final 0.0000%\n"),
    }
}

// Says what stands before a value: a word between two spaces, or a space.
fn say_label<E: Write>(errors: &mut E, kind: u64, field: usize)
    requires { field < count kind }
{
    let mut room = [0u8; LABEL];
    let size = put_label(&mut room, 0, kind, field);
    say(errors, &room[..size]);
    if 1 < size {
        say(errors, b"and ");
    }
}

// Says what kind of value is expected.
fn say_value<E: Write>(errors: &mut E, style: Style) {
    match style {
        Style::Plain => say(errors, b"a number"),
        Style::Rate => say(errors, b"a rate"),
        Style::Time => say(errors, b"a time"),
        Style::Side => say(errors, b"bid or offer"),
    }
}

// Says that a field of a kind was expected.
fn say_field<E: Write>(errors: &mut E, kind: u64, field: usize)
    requires { field < count kind }
{
    say_label(errors, kind, field);
    say_value(errors, style_of(kind, field));
    say_example(errors, kind);
}

// Says that so many exceptions were expected.
fn say_exceptions<E: Write>(errors: &mut E, kind: u64, count: u64) {
    say(errors, b" ");
    say_number(errors, count);
    say(errors, b" exception days after their number, at most 400");
    say_example(errors, kind);
}

// Says that nothing more was expected.
fn say_end<E: Write>(errors: &mut E, kind: u64) {
    say(errors, b" nothing after the record");
    say_example(errors, kind);
}

// Says that a line is longer than any record's.
pub(crate) fn say_too_long<E: Write>(errors: &mut E, number: u64) {
    say_line(errors, number);
    say(errors, b" a shorter line\n");
}

// Says what was expected of a line that is no record's.
pub(crate) fn say_expected<E: Write>(errors: &mut E, number: u64, error: LineError)
    requires { Names error }
{
    say_line(errors, number);
    match error {
        LineError::NoKind => say(
            errors,
            b" a record: start, enrol, pay-in, pay-out, release, special, limits, open, trade, quote, settle, refresh or close\n",
        ),
        LineError::NoField { kind, field } => say_field(errors, kind, field),
        LineError::NoException {
            kind,
            announced,
            ..
        } => say_exceptions(errors, kind, announced),
        LineError::TooLong { kind } => say_end(errors, kind),
    }
}
