// What the positions of an account ask in margin (document 01, 'Trade').
#![tactic(auto)]

ghost use Rattle.std.specs.Prelude.{◌≡◌, ◌≤◌};
ghost use Rattle.whole.specs.Within.{Within};
ghost use Rattle.positions.specs.Bounds.{Margins, Nets};
ghost use Rattle.totals.specs.Totals.{asked, total};

use positions::Position;
use whole::size;

// The margin that one position asks for: its net's size at the contract's margin rate.
fn asked(p: Position, margin: u64) -> i64
    requires { Within 21000 p.net × (margin ≤ 100000000) }
    ensures { result ≡ asked p margin }
{
    (size(p.net) * margin) as i64
}

// The margin that all of them ask for, with no netting between contracts.
pub fn total(positions: [Position; 6], margins: [u64; 6]) -> i64
    requires { Nets 21000 positions × Margins margins }
    ensures { result ≡ total positions margins }
{
    let mut sum = 0;
    for (p, margin) in positions.iter().zip(&margins) {
        sum += asked(*p, *margin);
    }
    sum
}
