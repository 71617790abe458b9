// Calls that enrol an account, or change what it holds besides its positions.
ghost use Rattle.std.specs.Prelude.{◌≡◌, ◌≤◌, pos};
ghost use Rattle.holdings.specs.Bounds.{Granted};
ghost use Rattle.model.specs.Calls.{enrol as enrol_call, set_special, set_limits};
ghost use Rattle.standing.specs.Made.{Sound, Made};
ghost use Rattle.refusals.specs.Refusals.{outcome_number};
ghost use Rattle.keeping.specs.Changes.{changed, change_call};

use accounts::new_account;
use holdings::{Holdings, Limits, with_limits, with_special};
use memory::{find_account, load_account, load_header, store_account, store_header};
use places::place_of;
use refusals::Refusal;

// A new account.
pub fn enrol(
    counts: &mut [u64],
    money: &mut [i64],
    number: u64,
    limits: Limits,
) -> Result<(), Refusal>
    requires { Sound counts.old money.old × Granted limits }
    ensures { Made counts.old money.old (enrol_call number limits) (outcome_number result) counts.new money.new }
{
    let h = load_header(&counts[..]);
    if h.point == 0 {
        return Err(Refusal::NotNow);
    }
    let None = find_account(&counts[..], number) else {
        return Err(Refusal::AlreadyEnrolled);
    };
    let n = h.members;
    if 64 <= n {
        return Err(Refusal::AccountsFull);
    }
    let a = new_account(number, limits, h.reference);
    let mut g = h;
    g.members = n + 1;
    store_header(&mut *counts, g);
    store_account(&mut *counts, &mut *money, n as usize, a);
    Ok(())
}

// What is set for an account: a special margin, in the place of the old one, or limits, to come into force at the next close.
#[derive(Clone, Copy)]
enum Change {
    Special(i64),
    Coming(Limits),
}

fn changed(h: Holdings, change: Change) -> Holdings
    ensures { result ≡ changed h change }
{
    match change {
        Change::Special(special) => with_special(h, special),
        Change::Coming(limits) => with_limits(h, limits),
    }
}

// The change made to the account of a number.
fn set(counts: &mut [u64], money: &mut [i64], number: u64, change: Change) -> Result<(), Refusal>
    requires { Sound counts.old money.old }
    ensures { Made counts.old money.old (change_call number change) (outcome_number result) counts.new money.new }
{
    let h = load_header(&counts[..]);
    let i = place_of(&counts[..], 0 < h.point, number)?;
    let mut a = load_account(&counts[..], &money[..], i);
    let held = a.holdings;
    a.holdings = changed(held, change);
    store_account(&mut *counts, &mut *money, i, a);
    Ok(())
}

// A special margin. It counts from the next close on.
pub fn set_special(
    counts: &mut [u64],
    money: &mut [i64],
    number: u64,
    special: u64,
) -> Result<(), Refusal>
    requires { Sound counts.old money.old × (special ≤ 100000000000000) }
    ensures { Made counts.old money.old (set_special number (pos special)) (outcome_number result) counts.new money.new }
{
    set(
        &mut *counts,
        &mut *money,
        number,
        Change::Special(special as i64),
    )
}

// Limits. They are in force from the next close on.
pub fn set_limits(
    counts: &mut [u64],
    money: &mut [i64],
    number: u64,
    limits: Limits,
) -> Result<(), Refusal>
    requires { Sound counts.old money.old × Granted limits }
    ensures { Made counts.old money.old (set_limits number limits) (outcome_number result) counts.new money.new }
{
    set(&mut *counts, &mut *money, number, Change::Coming(limits))
}
