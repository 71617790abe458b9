// What a close makes of the accounts.
ghost use Rattle.std.specs.Prelude.{◌≡◌, ◌<◌, length};
ghost use Rattle.lists.specs.Tabulate.{tab};
ghost use Rattle.funds.specs.Bounds.{days_most};
ghost use Rattle.closing.specs.Bounds.{GoodDayEnd};
ghost use Rattle.accounts.specs.Bounds.{Sound};
ghost use Rattle.positions.specs.Deals.{flat};
ghost use Rattle.memory.specs.Layout.{Long};
ghost use Rattle.standing.specs.CloseRows.{day_end_in, moved_up, closed_row, booked_with};
ghost use Rattle.standing.specs.Turns.{Has, Tells, Turns};
ghost use Rattle.day_end.specs.Closable.{mark_at, Bookable};

use accounts::{Account, close_account};
use closing::DayEnd;
use memory::{load_account, load_contract, load_header, load_margins, load_outcome, store_account};
use positions::{Mark, Position, overnight};
use std::array;

// How the contract in row k is marked. Rule 5 is that of a last trading day.
fn mark_at(counts: &[u64], money: &[i64], k: usize) -> Mark
    requires { Long counts.now money.now × (k < 6) }
    ensures { result ≡ mark_at counts.now money.now k }
{
    let x = load_contract(counts, money, k);
    let o = load_outcome(counts, money, k);
    Mark {
        previous: x.previous,
        rate: o.rate,
        ending: o.rule == 5,
    }
}

fn marks_of(counts: &[u64], money: &[i64]) -> [Mark; 6]
    requires { Long counts.now money.now }
    ensures { result ≡ tab (mark_at counts.now money.now) 6 }
{
    array::from_fn(|k| mark_at(counts, money, k))
}

// What the close has for every account, once the outcomes stand in their rows.
pub(crate) fn day_end(counts: &[u64], money: &[i64]) -> DayEnd
    requires { Long counts.now money.now }
    ensures { Tells counts.now money.now result day_end_in }
{
    let h = load_header(counts);
    DayEnd {
        marks: marks_of(counts, money),
        margins: load_margins(counts),
        reference: h.reference,
        multiplier: h.multiplier,
    }
}

// Positions, those after the first moved up where the first contract has ended.
fn moved_up(p: [Position; 6], ended: bool) -> [Position; 6]
    requires { length p ≡ 6 }
    ensures { result ≡ moved_up ended flat p }
{
    if !ended {
        return p;
    }
    [p[1], p[2], p[3], p[4], p[5], overnight(0)]
}

fn closed_row(a: Account, d: DayEnd, ended: bool) -> Account
    requires { Sound 10000 days_most a × GoodDayEnd d }
    ensures { result ≡ closed_row ended d a }
{
    let x = close_account(a, d);
    let mut holdings = x.holdings;
    holdings.positions = moved_up(holdings.positions, ended);
    Account { holdings, ..x }
}

// The close of each account.
pub(crate) fn close_accounts(counts: &mut [u64], money: &mut [i64], d: DayEnd, ended: bool)
    requires { Has (Bookable d) counts.old money.old }
    ensures { Turns counts.old money.old counts.new money.new (booked_with ended d) }
{
    let h = load_header(counts);
    for i in 0..h.members as usize {
        let a = load_account(counts, money, i);
        store_account(counts, money, i, closed_row(a, d, ended));
    }
}
