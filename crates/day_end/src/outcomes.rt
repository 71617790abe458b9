// What a close finds for each contract: rate, rule and count.
ghost use Rattle.std.specs.Prelude.{◌≡◌, true, ◌<◌};
ghost use Rattle.days.specs.Days.{rising, is_on, is_working};
ghost use Rattle.months.specs.Months.{last_trading_of};
ghost use Rattle.tallies.specs.Bounds.{Sound};
ghost use Rattle.standing.specs.CloseRows.{outcome_from, outcome_for, priced};
ghost use Rattle.standing.specs.Turns.{Has, Tells, Turns};
ghost use Rattle.day_end.specs.Closable.{Priceable};

use calendar::last_trading_of;
use memory::{Contract, Outcome, load_contract, load_header, store_outcome};
use rates::{number_of, settle};

// Whether a day is a code's last trading day.
fn ends_on(exceptions: &[u64], day: u64, code: u64) -> bool
    requires { rising exceptions.now ≡ true }
    ensures { result ≡ is_on day (last_trading_of (is_working exceptions.now) code) }
{
    last_trading_of(exceptions, code) == Some(day)
}

fn outcome_of(x: Contract, ending: bool, final_rate: i64) -> Outcome
    requires { Sound x.tally }
    ensures { result ≡ outcome_from x ending final_rate }
{
    let s = settle(x.tally, x.previous, ending, final_rate);
    Outcome {
        code: x.code,
        rate: s.rate,
        rule: number_of(s.rule),
        used: s.used,
    }
}

// The outcome for the contract in row k.
fn outcome_at(counts: &[u64], money: &[i64], k: usize, final_rate: i64) -> Outcome
    requires { Has Priceable counts.now money.now × (k < 6) }
    ensures { Tells counts.now money.now result (outcome_for final_rate k) }
{
    let h = load_header(counts);
    let x = load_contract(counts, money, k);
    let n = h.exceptions as usize;
    let ending = ends_on(&counts[10..10 + n], h.day, x.code);
    outcome_of(x, ending, final_rate)
}

// The outcomes, each in its contract's row.
pub(crate) fn store_outcomes(counts: &mut [u64], money: &mut [i64], final_rate: i64)
    requires { Has Priceable counts.old money.old }
    ensures { Turns counts.old money.old counts.new money.new (priced final_rate) }
{
    for k in 0..6 {
        let o = outcome_at(counts, money, k, final_rate);
        store_outcome(counts, money, k, o);
    }
}
