// The open of a day: the day is tested, and its codes are listed in the place of those listed so far (document 01, 'The day').
#![tactic(auto)]

ghost use Rattle.std.specs.Prelude.{◌≡◌};
ghost use Rattle.model.specs.Calls.{opening as opening_call};
ghost use Rattle.standing.specs.Made.{Sound, Answered};
ghost use Rattle.standing.specs.OpenRows.{open_header};
ghost use Rattle.opening.specs.Opens.{answer_of};

mod dates;
mod listed;
mod members;

use crate::dates::{is_next, is_shut, not_next};
use crate::listed::relist;
use calendar::listed_on;
pub use dates::OpenError;
use days::{is_working, next_working};
use memory::{Header, load_header, store_header};
use refusals::Refusal;

// The header of a day that has just opened.
fn open_header(h: Header, day: u64) -> Header
    ensures { result ≡ open_header day h }
{
    Header {
        point: 2,
        day,
        clock: 0,
        trades: 0,
        listed: 6,
        ..h
    }
}

// Opens a day, with the list rates and margin rates of its codes, by rising code.
pub fn open_day(
    counts: &mut [u64],
    money: &mut [i64],
    day: u64,
    rates: [i64; 6],
    margins: [u64; 6],
) -> Result<(), OpenError>
    requires { Sound counts.old money.old }
    ensures { Answered counts.old money.old (opening_call (record { day = day; rates = rates; margins = margins })) (answer_of result) counts.new money.new }
{
    let h = load_header(counts);
    if !is_shut(h.point) {
        return Err(OpenError::Refused(Refusal::NotNow));
    }
    let n = h.exceptions as usize;
    let exceptions = &counts[10..10 + n];
    if !is_working(exceptions, day) {
        return Err(OpenError::Refused(Refusal::DayOff));
    }
    let expected = next_working(exceptions, h.day + 1);
    if !is_next(h.point, expected, day) {
        return Err(not_next(expected));
    }
    let codes = listed_on(exceptions, day).ok_or(OpenError::Refused(Refusal::NoSettlementDay))?;
    relist(counts, money, codes, rates, margins);
    store_header(counts, open_header(h, day));
    Ok(())
}
