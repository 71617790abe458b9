// The accounts' positions, each where its code now stands.
ghost use Rattle.std.specs.Prelude.{◌≡◌, ◌≤◌, length, get_or};
ghost use Rattle.positions.specs.Deals.{flat};
ghost use Rattle.memory.specs.Layout.{Long};
ghost use Rattle.standing.specs.WalkLaws.{walked};
ghost use Rattle.standing.specs.OpenRows.{relisted_positions, relisted};
ghost use Rattle.standing.specs.Turns.{Turns};

use accounts::Account;
use memory::{load_account, store_account};
use positions::{Position, overnight};

// The position of a row, none where there is no such row.
fn position_at(positions: [Position; 6], row: usize) -> Position
    requires { length positions ≡ 6 }
    ensures { result ≡ get_or positions row flat }
{
    positions.get(row).copied().unwrap_or(overnight(0))
}

fn relisted_positions(positions: [Position; 6], places: [usize; 6]) -> [Position; 6]
    requires { length positions ≡ 6 }
    ensures { result ≡ relisted_positions places positions }
{
    places.map(|row| position_at(positions, row))
}

fn relisted(a: Account, places: [usize; 6]) -> Account
    requires { length a.holdings.positions ≡ 6 }
    ensures { result ≡ relisted places a }
{
    let mut holdings = a.holdings;
    let former = holdings.positions;
    let after = relisted_positions(former, places);
    holdings.positions = after;
    Account { holdings, ..a }
}

pub(crate) fn relist_members(
    counts: &mut [u64],
    money: &mut [i64],
    members: usize,
    places: [usize; 6],
)
    requires { Long counts.old money.old × (members ≤ 64) }
    ensures { Turns counts.old money.old counts.new money.new (λ r. walked r (relisted places) members) }
{
    for i in 0..members {
        let a = load_account(counts, money, i);
        store_account(counts, money, i, relisted(a, places));
    }
}
