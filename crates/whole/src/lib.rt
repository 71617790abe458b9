// Signed whole numbers: sizes, the larger and the smaller of two, and the two roundings of the book.
// Each function serves the whole range of its types.
#![tactic(auto)]

ghost use Rattle.std.specs.Prelude.{◌≡◌, ◌<◌, ◌≤◌, ◌^◌, nat_abs};
ghost use Rattle.whole.specs.Larger.{larger, smaller};
ghost use Rattle.whole.specs.Round.{on_tie, size_rounded_by, with_sign, rounded, hundredth_up};

// The size of a number, as the total takes it of a net position.
pub fn size(x: i64) -> u64
    ensures { result ≡ nat_abs x }
{
    x.unsigned_abs()
}

// The larger of two, for the over-limit and the core.
pub fn larger(a: i64, b: i64) -> i64
    ensures { result ≡ larger a b }
{
    a.max(b)
}

// The smaller of two, for the core of an account with too little margin.
pub fn smaller(a: i64, b: i64) -> i64
    ensures { result ≡ smaller a b }
{
    a.min(b)
}

// Where a tie goes: to the higher number, whose size is the smaller one below zero. The one place to change when the tie rule does.
fn on_tie(n: i64, q: u64) -> u64
    requires { q < 2 ^ 63 }
    ensures { result ≡ on_tie n q }
{
    if n < 0 { q } else { q + 1 }
}

// The size of n / d to the nearest.
// The rest is held against what is left of d, so that nothing has to be doubled.
fn size_rounded(n: i64, d: u64) -> u64
    requires { 0 < d }
    ensures { result ≡ size_rounded_by on_tie n d }
{
    let m = size(n);
    let whole = m / d;
    let rest = m % d;
    let left = d - rest;
    if rest < left {
        whole
    } else if left < rest {
        whole + 1
    } else {
        on_tie(n, whole)
    }
}

// A size with the sign of n.
// Below zero it is made from the size less one, since the least number's size is no i64.
fn with_sign(n: i64, m: u64) -> i64
    requires { m ≤ nat_abs n }
    ensures { result ≡ with_sign n m }
{
    if n < 0 {
        if m == 0 { 0 } else { -1 - (m - 1) as i64 }
    } else {
        m as i64
    }
}

// n / d to the nearest, for a settlement rate: the one rounding at the end.
pub fn rounded(n: i64, d: u64) -> i64
    requires { 0 < d }
    ensures { result ≡ rounded n d }
{
    with_sign(n, size_rounded(n, d))
}

// A hundredth, rounded up, for the over-limit, whose multiplier is in hundredths.
// The division goes toward zero, so only a rest above zero has to go up.
pub fn hundredth_up(x: i64) -> i64
    ensures { result ≡ hundredth_up x }
{
    let q = x / 100;
    if 0 < x % 100 { q + 1 } else { q }
}
