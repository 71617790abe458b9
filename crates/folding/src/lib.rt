// How a signed field is written: folded, so that a number near zero is short whatever its sign.
#![tactic(auto)]

ghost use Rattle.std.specs.Prelude.{◌≡◌};
ghost use Rattle.folding.specs.Fold.{folded, unfolded};

// A signed number as it is written: 0, -1, 1, -2 become 0, 1, 2, 3.
// `-1 - x` fits at every x, and `0 - x` does not at the least one.
pub fn fold(x: i64) -> u64
    ensures { result ≡ folded x }
{
    if x < 0 {
        (-1 - x) as u64 * 2 + 1
    } else {
        x as u64 * 2
    }
}

// The signed number that a written one stands for: an odd one is below zero.
pub fn unfold(n: u64) -> i64
    ensures { result ≡ unfolded n }
{
    let half = (n / 2) as i64;
    if n % 2 == 0 { half } else { -1 - half }
}
