// Calls that walk every member: settle and refresh (document 01, 'Settle' and 'Refresh').
#![tactic(auto)]

ghost use Rattle.std.specs.Prelude.{◌≡◌};
ghost use Rattle.model.specs.Calls.{settle as settle_call, refresh as refresh_call};
ghost use Rattle.model.specs.Effects.{after};
ghost use Rattle.memory.specs.Layout.{header_at};
ghost use Rattle.memory.specs.Memory.{Holds};
ghost use Rattle.standing.specs.Standing.{rows_of, view};
ghost use Rattle.standing.specs.Made.{Sound, Made};
ghost use Rattle.refusals.specs.Refusals.{outcome_number};

use accounts::{Account, refresh_account};
use funds::settled;
use memory::{
    Header, load_account, load_header, load_house, store_account, store_header, store_house,
};
use refusals::Refusal;

// The members settled one after the other, the house left with the rest, and the day settled.
fn settle_members(counts: &mut [u64], money: &mut [i64], h: Header)
    requires { Sound counts.old money.old × (h ≡ header_at counts.old) }
    ensures { Holds counts.new money.new (rows_of (after (view counts.old money.old) settle_call)) }
{
    let mut house = load_house(money);
    for i in 0..h.members as usize {
        let a = load_account(counts, money, i);
        let s = settled(a.funds);
        house -= s.paid;
        let b = Account {
            funds: s.funds,
            ..a
        };
        store_account(counts, money, i, b);
    }
    store_house(money, house);
    store_header(counts, Header { point: 3, ..h });
}

// The settlement of the day, once while it is open.
pub fn settle(counts: &mut [u64], money: &mut [i64]) -> Result<(), Refusal>
    requires { Sound counts.old money.old }
    ensures { Made counts.old money.old settle_call (outcome_number result) counts.new money.new }
{
    let h = load_header(counts);
    if h.point != 2 {
        return Err(Refusal::NotNow);
    }
    settle_members(counts, money, h);
    Ok(())
}

// The cores of the members refreshed one after the other.
fn refresh_members(counts: &mut [u64], money: &mut [i64], h: Header)
    requires { Sound counts.old money.old × (h ≡ header_at counts.old) }
    ensures { Holds counts.new money.new (rows_of (after (view counts.old money.old) refresh_call)) }
{
    for row in 0..h.members as usize {
        let a = load_account(counts, money, row);
        store_account(counts, money, row, refresh_account(a, h.reference));
    }
}

// The cores of all members that are not in default, once the day is settled.
pub fn refresh(counts: &mut [u64], money: &mut [i64]) -> Result<(), Refusal>
    requires { Sound counts.old money.old }
    ensures { Made counts.old money.old refresh_call (outcome_number result) counts.new money.new }
{
    let h = load_header(counts);
    if h.point != 3 {
        return Err(Refusal::NotNow);
    }
    refresh_members(counts, money, h);
    Ok(())
}
