// Days of document 01's calendar: exceptions, which days are working, the working day next to a day, and whether the
// calendar is accepted. Days are counted from 2020-01-01, day 0 and a Wednesday, to 2029-12-31, day 3,652.
//
// Exceptions are lent as a slice of days that rise. A caller tests that once, by `are_rising`.
#![tactic(auto)]

ghost use Rattle.std.specs.Prelude.{◌≡◌, true, ◌≤◌, length};
ghost use Rattle.days.specs.Days.{is_weekend, is_exception, LaterFrom, rising, is_working, next_working, working_before, accepted};

// Whether each exception is later than the one before it.
pub fn are_rising(exceptions: &[u64]) -> bool
    ensures { result ≡ rising exceptions.now }
{
    exceptions.is_sorted_by(|earlier, later| *earlier < *later)
}

// How many exceptions, from the first on, may not be later than the day: those behind are. It is doubled until it is enough, so that a day
// among the first ones takes no longer, however many follow.
fn reach(exceptions: &[u64], day: u64) -> usize
    requires { rising exceptions.now ≡ true }
    ensures within { result ≤ length exceptions.now }
    ensures behind { LaterFrom exceptions.now day result }
{
    let mut most: usize = 1;
    while most < exceptions.len() && exceptions[most] <= day {
        most *= 2;
    }
    most.min(exceptions.len())
}

// They rise, so no day before the first or past the last is among them, and a search by halves finds any other where it is.
fn is_exception(exceptions: &[u64], day: u64) -> bool
    requires { rising exceptions.now ≡ true }
    ensures { result ≡ is_exception exceptions.now day }
{
    let Some(first) = exceptions.first() else {
        return false;
    };
    if day < *first || exceptions[exceptions.len() - 1] < day {
        return false;
    }
    let near = reach(exceptions, day);
    exceptions[..near].binary_search(&day).is_ok()
}

#[tactic(auto, unfolding(crate::specs::Days::is_weekend))]
fn is_weekend(day: u64) -> bool
    ensures { result ≡ is_weekend day }
{
    matches!(day % 7, 3 | 4)
}

// Whether a day is working: an exception flips its day.
#[tactic(auto, unfolding(crate::specs::Days::is_working))]
pub fn is_working(exceptions: &[u64], day: u64) -> bool
    requires { rising exceptions.now ≡ true }
    ensures { result ≡ is_working exceptions.now day }
{
    let off = is_weekend(day);
    if is_exception(exceptions, day) {
        off
    } else {
        !off
    }
}

// The first working day from `day` on, if the calendar still has one.
pub fn next_working(exceptions: &[u64], day: u64) -> Option<u64>
    requires { rising exceptions.now ≡ true }
    ensures { result ≡ next_working (is_working exceptions.now) day }
{
    (day..3653).find(|d| is_working(exceptions, *d))
}

// The last working day before `day`, if the calendar has one. The search begins at the calendar's end at the latest.
pub fn working_before(exceptions: &[u64], day: u64) -> Option<u64>
    requires { rising exceptions.now ≡ true }
    ensures { result ≡ working_before (is_working exceptions.now) day }
{
    for earlier in (0..day.min(3653)).rev() {
        if is_working(exceptions, earlier) {
            return Some(earlier);
        }
    }
    None
}

// Whether no more than 14 days off run anywhere in the calendar.
pub fn is_accepted(exceptions: &[u64]) -> bool
    requires { rising exceptions.now ≡ true }
    ensures { result ≡ accepted (is_working exceptions.now) }
{
    let mut run: u64 = 0;
    for counted in 0..3653 {
        if is_working(exceptions, counted) {
            run = 0;
        } else {
            run += 1;
        }
        if 14 < run {
            return false;
        }
    }
    true
}
