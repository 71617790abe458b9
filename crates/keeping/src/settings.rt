// The start of a book.
ghost use Rattle.std.specs.Prelude.{◌≡◌, true, ◌≤◌, length};
ghost use Rattle.days.specs.Days.{rising};
ghost use Rattle.model.specs.Book.{Settings};
ghost use Rattle.model.specs.Calls.{start as start_call};
ghost use Rattle.standing.specs.Made.{Sound, Made};
ghost use Rattle.refusals.specs.Refusals.{outcome_number};

use days::is_accepted;
use memory::{load_header, store_exceptions, store_header};
use refusals::Refusal;

// The reference rate, the multiplier and the exceptions, once and before all else.
pub fn start(
    counts: &mut [u64],
    money: &[i64],
    reference: u64,
    multiplier: u64,
    exceptions: &[u64],
) -> Result<(), Refusal>
    requires { Sound counts.old money.now × ((rising exceptions.now ≡ true) × (length exceptions.now ≤ 400)) }
    ensures { Made counts.old money.now (start_call (record { reference = reference; multiplier = multiplier; exceptions = exceptions.now })) (outcome_number result) counts.new money.now }
{
    let h = load_header(&counts[..]);
    if 0 < h.point {
        return Err(Refusal::NotNow);
    }
    if !is_accepted(exceptions) {
        return Err(Refusal::CalendarRefused);
    }
    let mut g = h;
    g.point = 1;
    g.reference = reference;
    g.multiplier = multiplier;
    g.exceptions = exceptions.len() as u64;
    store_header(&mut *counts, g);
    store_exceptions(&mut *counts, exceptions);
    Ok(())
}
