// Quotes: what one is refused for, and what an accepted one changes (document 01, 'Settlement rate').
#![tactic(auto)]

ghost use Rattle.std.specs.Prelude.{◌≡◌, ◌<◌, length};
ghost use Rattle.model.specs.Calls.{quote as quote_call};
ghost use Rattle.model.specs.Ranged.{GoodQuote};
ghost use Rattle.standing.specs.Made.{Sound, Made};
ghost use Rattle.refusals.specs.Refusals.{outcome_number};
ghost use Rattle.quoting.specs.Quotes.{has_room};

use hours::{in_hours, is_open};
use memory::{find_contract, load_contract, load_header, store_contract, store_header};
use refusals::Refusal;
use tallies::{Tally, in_last_hour, with_quote};

// Whether there is room for a quote: one outside the last hour takes none.
fn has_room(t: Tally, time: u64, side: u64) -> bool
    requires { (length t.quotes ≡ 2) × (side < 2) }
    ensures { result ≡ has_room t time side }
{
    if !in_last_hour(time) {
        return true;
    }
    let quotes = t.quotes;
    let mean = quotes[side as usize];
    mean.weight < 10000
}

// A quote: refused as NotNow, NotListed, OutOfHours, TooEarly or NoRoom, in this order, and nothing is changed, or done.
pub fn quote(
    counts: &mut [u64],
    money: &mut [i64],
    time: u64,
    code: u64,
    side: u64,
    rate: i64,
) -> Result<(), Refusal>
    requires { Sound counts.old money.old × GoodQuote (record { time = time; code = code; side = side; rate = rate }) }
    ensures { Made counts.old money.old (quote_call (record { time = time; code = code; side = side; rate = rate })) (outcome_number result) counts.new money.new }
{
    let h = load_header(&counts[..]);
    if !is_open(h.point) {
        return Err(Refusal::NotNow);
    }
    let k = find_contract(&counts[..], code).ok_or(Refusal::NotListed)?;
    if !in_hours(time) {
        return Err(Refusal::OutOfHours);
    }
    if time < h.clock {
        return Err(Refusal::TooEarly);
    }
    let mut x = load_contract(&counts[..], &money[..], k);
    if !has_room(x.tally, time, side) {
        return Err(Refusal::NoRoom);
    }
    x.tally = with_quote(x.tally, time, side, rate);
    let mut g = h;
    g.clock = time;
    store_header(&mut *counts, g);
    store_contract(&mut *counts, &mut *money, k, x);
    Ok(())
}
