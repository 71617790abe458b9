// Calls that name one account and move its money: pay in, pay out and release (document 01, 'The day').
#![tactic(auto)]

ghost use Rattle.std.specs.Prelude.{◌≡◌, ◌≤◌, pos};
ghost use Rattle.whole.specs.Amounts.{Amount};
ghost use Rattle.funds.specs.Bounds as bounds;
ghost use Rattle.model.specs.Calls.{pay_in, pay_out, release as release_call};
ghost use Rattle.standing.specs.Made.{Sound, Made};
ghost use Rattle.refusals.specs.Refusals.{outcome_number};
ghost use Rattle.payments.specs.Payments.{may_pay, paid_by, pay_call};

use accounts::Account;
use funds::{Funds, PaymentError};
use memory::{load_account, load_header, store_account};
use places::place_of;
use refusals::Refusal;

// Into the cash, out of it, or from margin to cash.
#[derive(Clone, Copy)]
enum Way {
    In,
    Out,
    Back,
}

// Margin is released once the day is settled, and money is paid at any time after the start.
fn may_pay(way: Way, point: u64) -> bool
    ensures { result ≡ may_pay way point }
{
    match way {
        Way::In => 0 < point,
        Way::Out => 0 < point,
        Way::Back => point == 3,
    }
}

// What moving an amount of an account's money answers.
fn paid(way: Way, f: Funds, amount: i64) -> Result<Funds, PaymentError>
    requires { bounds.Sound bounds.days_most f × Amount 100000000000000 amount }
    ensures { result ≡ paid_by way f amount }
{
    match way {
        Way::In => funds::pay_in(f, amount),
        Way::Out => funds::pay_out(f, amount),
        Way::Back => funds::release(f, amount),
    }
}

// Money moved for the account of a number.
fn transfer(
    counts: &mut [u64],
    money: &mut [i64],
    way: Way,
    number: u64,
    amount: u64,
) -> Result<(), Refusal>
    requires { Sound counts.old money.old × (amount ≤ 100000000000000) }
    ensures { Made counts.old money.old (pay_call way number (pos amount)) (outcome_number result) counts.new money.new }
{
    let h = load_header(&counts[..]);
    let allowed = may_pay(way, h.point);
    let i = place_of(&counts[..], allowed, number)?;
    let a = load_account(&counts[..], &money[..], i);
    let funds = paid(way, a.funds, amount as i64)?;
    store_account(&mut *counts, &mut *money, i, Account { funds, ..a });
    Ok(())
}

// Money into the cash of an account.
pub fn pay_in(
    counts: &mut [u64],
    money: &mut [i64],
    number: u64,
    amount: u64,
) -> Result<(), Refusal>
    requires { Sound counts.old money.old × (amount ≤ 100000000000000) }
    ensures { Made counts.old money.old (pay_in number (pos amount)) (outcome_number result) counts.new money.new }
{
    transfer(&mut *counts, &mut *money, Way::In, number, amount)
}

// Money out of it.
pub fn pay_out(
    counts: &mut [u64],
    money: &mut [i64],
    number: u64,
    amount: u64,
) -> Result<(), Refusal>
    requires { Sound counts.old money.old × (amount ≤ 100000000000000) }
    ensures { Made counts.old money.old (pay_out number (pos amount)) (outcome_number result) counts.new money.new }
{
    transfer(&mut *counts, &mut *money, Way::Out, number, amount)
}

// Margin to cash.
pub fn release(
    counts: &mut [u64],
    money: &mut [i64],
    number: u64,
    amount: u64,
) -> Result<(), Refusal>
    requires { Sound counts.old money.old × (amount ≤ 100000000000000) }
    ensures { Made counts.old money.old (release_call number (pos amount)) (outcome_number result) counts.new money.new }
{
    transfer(&mut *counts, &mut *money, Way::Back, number, amount)
}
