// How the six rows of the contracts and an account's six positions stood before today. A row that no contract has is blank.
ghost use Rattle.std.specs.Prelude.{◌≡◌, ◌<◌};
ghost use Rattle.lists.specs.Padded.{padded};
ghost use Rattle.positions.specs.Deals.{flat};
ghost use Rattle.memory.specs.Layout.{Long, contract_at};
ghost use Rattle.model.specs.Book.{positions_of};
ghost use Rattle.standing.specs.Standing.{view};
ghost use Rattle.standing.specs.Made.{Sound};
ghost use Rattle.particulars.specs.Carried.{stood_at, stood};

use crate::Stood;
use memory::{find_account, load_account, load_contract};
use positions::{Position, no_positions};
use std::array;

// The row k of the contracts, with a position in it.
fn stood_at(counts: &[u64], money: &[i64], k: usize, p: Position) -> Stood
    requires { Long counts.now money.now × (k < 6) }
    ensures { result ≡ stood_at (contract_at counts.now money.now k) p }
{
    let row = load_contract(counts, money, k);
    Stood {
        code: row.code,
        previous: row.previous,
        net: p.before,
    }
}

// The positions of the account of a number, none where there is no such account.
pub(crate) fn positions_of(counts: &[u64], money: &[i64], number: u64) -> [Position; 6]
    requires { Sound counts.now money.now }
    ensures { result ≡ padded 6 flat (positions_of (view counts.now money.now) number) }
{
    let Some(i) = find_account(counts, number) else {
        return no_positions();
    };
    load_account(counts, money, i).holdings.positions
}

// The six rows, with six positions in them.
pub(crate) fn stood(counts: &[u64], money: &[i64], positions: [Position; 6]) -> [Stood; 6]
    requires { Long counts.now money.now }
    ensures { result ≡ stood counts.now money.now positions }
{
    array::from_fn(|k| stood_at(counts, money, k, positions[k]))
}
