// Whether a day may open, and what is answered where it is another's turn.
ghost use Rattle.std.specs.Prelude.{◌≡◌, ◌||◌, eqb};
ghost use Rattle.days.specs.Days.{is_on};
ghost use Rattle.opening.specs.Opens.{not_next_as};

use refusals::Refusal;

// Why a day is not opened. One that is not the next working day, which is the refusal NotNextDay, is told with the day that is.
#[derive(Clone, Copy, PartialEq, Eq, Debug)]
pub enum OpenError {
    Refused(Refusal),
    NotNext(u64),
}

// Whether the book stands before its first day or between two.
pub(crate) fn is_shut(point: u64) -> bool
    ensures { result ≡ (eqb point 1 || eqb point 4) }
{
    point == 1 || point == 4
}

// Whether a day is the book's first or the one expected after the one closed.
pub(crate) fn is_next(point: u64, expected: Option<u64>, day: u64) -> bool
    ensures { result ≡ (eqb point 1 || is_on day expected) }
{
    point == 1 || expected == Some(day)
}

// The refusal with the day expected. A closed day always has a working day after it, so the refusal never stands alone.
pub(crate) fn not_next(expected: Option<u64>) -> OpenError
    ensures { result ≡ not_next_as expected }
{
    match expected {
        Some(d) => OpenError::NotNext(d),
        None => OpenError::Refused(Refusal::NotNextDay),
    }
}
