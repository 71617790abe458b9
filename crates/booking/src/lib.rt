// What a close books on the positions of an account, and what it leaves of them (document 01, 'Close').
#![tactic(auto)]

ghost use Rattle.std.specs.Prelude.{◌≡◌};
ghost use Rattle.positions.specs.Bounds.{Priced, PricedAll, Kept, Modest};
ghost use Rattle.booking.specs.Variation.{variation_at, variation};
ghost use Rattle.booking.specs.Carried.{carried, all_carried};

use positions::{Mark, Position, overnight};
use std::array;

// What a close books on one position.
fn variation_at(p: Position, m: Mark) -> i64
    requires { Modest p × Priced m }
    ensures { result ≡ variation_at p m }
{
    let today = (p.net - p.before) * m.rate - p.cost;
    let held = p.before * (m.rate - m.previous);
    250 * (today + held)
}

// What a close books on all of them.
pub fn variation(positions: [Position; 6], marks: [Mark; 6]) -> i64
    requires { Kept 10000 positions × PricedAll marks }
    ensures { result ≡ variation positions marks }
{
    let mut sum = 0;
    for (p, m) in positions.iter().zip(&marks) {
        sum += variation_at(*p, *m);
    }
    sum
}

// What a close leaves of one position: nothing where the contract ends.
fn carried(p: Position, m: Mark) -> Position
    ensures { result ≡ carried p m }
{
    overnight(if m.ending { 0 } else { p.net })
}

// What a close leaves of all of them.
pub fn all_carried(positions: [Position; 6], marks: [Mark; 6]) -> [Position; 6]
    requires { Kept 10000 positions × PricedAll marks }
    ensures { result ≡ all_carried positions marks }
{
    array::from_fn(|row| carried(positions[row], marks[row]))
}
