// The close of a day (document 01, 'Close').
#![tactic(auto)]

mod bookings;
mod outcomes;
mod renewals;

ghost use Rattle.whole.specs.Within.{Within};
ghost use Rattle.model.specs.Calls.{close as close_call};
ghost use Rattle.standing.specs.CloseRows.{closed_rows};
ghost use Rattle.standing.specs.Made.{Sound, Made};
ghost use Rattle.standing.specs.Turns.{Has, Turns};
ghost use Rattle.refusals.specs.Refusals.{outcome_number};
ghost use Rattle.day_end.specs.Closable.{Closable};

use bookings::{close_accounts, day_end};
use memory::load_header;
use outcomes::store_outcomes;
use refusals::Refusal;
use renewals::{renew_contracts, shut_header};

// The close of a day that is open and settled: rates, then accounts, then contracts, and the day is over.
fn close_rows(counts: &mut [u64], money: &mut [i64], final_rate: i64)
    requires { Has (Closable final_rate) counts.old money.old }
    ensures { Turns counts.old money.old counts.new money.new (closed_rows final_rate) }
{
    store_outcomes(counts, money, final_rate);
    let d = day_end(counts, money);
    let ended = d.marks[0].ending;
    close_accounts(counts, money, d, ended);
    renew_contracts(counts, money, ended);
    shut_header(counts, ended);
}

// The close, once the day is settled.
pub fn close(counts: &mut [u64], money: &mut [i64], final_rate: i64) -> Result<(), Refusal>
    requires { Sound counts.old money.old × Within 100000 final_rate }
    ensures { Made counts.old money.old (close_call final_rate) (outcome_number result) counts.new money.new }
{
    let h = load_header(counts);
    if h.point != 3 {
        return Err(Refusal::NotNow);
    }
    close_rows(counts, money, final_rate);
    Ok(())
}
