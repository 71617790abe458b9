// The rows of the enrolled accounts.
ghost use Rattle.std.specs.Prelude.{◌≡◌, [], ◌∷◌, ◌+◌, ◌<◌, ◌≤◌, length};
ghost use Rattle.lists.specs.Block.{block};
ghost use Rattle.memory.specs.Rows.{position_of, positions_of, funds_of, holdings_of, account_counts, position_cells, six_positions, held_cells, funds_cells, account_money};
ghost use Rattle.memory.specs.Layout.{Long, account_at, with_account_counts, with_account_money};

use crate::cells::put_cells;
use accounts::Account;
use funds::Funds;
use holdings::{Holdings, Limits};
use positions::Position;
use std::array;

fn position_in(m: &[i64], k: usize) -> Position
    requires { k + 3 ≤ length m.now }
    ensures { result ≡ position_of m.now k }
{
    Position {
        before: m[k],
        net: m[k + 1],
        cost: m[k + 2],
    }
}

fn positions_in(m: &[i64]) -> [Position; 6]
    requires { length m.now ≡ 29 }
    ensures { result ≡ positions_of m.now }
{
    array::from_fn(|k| position_in(m, 11 + k * 3))
}

fn funds_in(c: &[u64], m: &[i64]) -> Funds
    requires { (length c.now ≡ 4) × (length m.now ≡ 29) }
    ensures { result ≡ funds_of c.now m.now }
{
    Funds {
        cash: m[6],
        margin: m[7],
        due: m[8],
        requirement: m[9],
        free: m[10],
        flag: c[3] == 1,
    }
}

fn holdings_in(c: &[u64], m: &[i64]) -> Holdings
    requires { (length c.now ≡ 4) × (length m.now ≡ 29) }
    ensures { result ≡ holdings_of c.now m.now }
{
    Holdings {
        limits: Limits {
            clearing: c[1],
            tolerance: m[0],
        },
        coming: Limits {
            clearing: c[2],
            tolerance: m[1],
        },
        core: m[2],
        special: m[3],
        dayend: m[4],
        variation: m[5],
        positions: positions_in(m),
    }
}

pub fn load_account(counts: &[u64], money: &[i64], i: usize) -> Account
    requires { Long counts.now money.now × (i < 64) }
    ensures { result ≡ account_at counts.now money.now i }
{
    let a = 500 + i * 4;
    let b = 61 + i * 29;
    let c = &counts[a..a + 4];
    let m = &money[b..b + 29];
    Account {
        number: c[0],
        holdings: holdings_in(c, m),
        funds: funds_in(c, m),
    }
}

fn account_counts(x: Account) -> [u64; 4]
    ensures { result ≡ account_counts x }
{
    [
        x.number,
        x.holdings.limits.clearing,
        x.holdings.coming.clearing,
        u64::from(x.funds.flag),
    ]
}

fn held_cells(h: Holdings) -> [i64; 6]
    ensures { result ≡ held_cells h }
{
    [
        h.limits.tolerance,
        h.coming.tolerance,
        h.core,
        h.special,
        h.dayend,
        h.variation,
    ]
}

fn funds_cells(f: Funds) -> [i64; 5]
    ensures { result ≡ funds_cells f }
{
    [f.cash, f.margin, f.due, f.requirement, f.free]
}

fn position_cells(p: Position) -> [i64; 3]
    ensures { result ≡ position_cells p }
{
    [p.before, p.net, p.cost]
}

fn put_positions(row: &mut [i64], h: Holdings)
    requires { length row.old ≡ 18 }
    ensures { row.new ≡ block position_cells (six_positions h) }
{
    for (k, p) in h.positions.iter().enumerate() {
        put_cells(row, k * 3, &position_cells(*p));
    }
}

fn put_account_money(row: &mut [i64], x: Account)
    requires { length row.old ≡ 29 }
    ensures { row.new ≡ account_money x }
{
    put_cells(row, 0, &held_cells(x.holdings));
    put_cells(row, 6, &funds_cells(x.funds));
    put_positions(&mut row[11..], x.holdings);
}

pub fn store_account(counts: &mut [u64], money: &mut [i64], i: usize, x: Account)
    requires { Long counts.old money.old × (i < 64) }
    ensures { (counts.new ≡ with_account_counts counts.old i x) × (money.new ≡ with_account_money money.old i x) }
{
    put_cells(counts, 500 + i * 4, &account_counts(x));
    let b = 61 + i * 29;
    put_account_money(&mut money[b..b + 29], x);
}
