// What an account holds: its positions, its limits, its core and special margin, and what the last close found. Trades and
// limits are over this part of an account alone (document 01, 'Trade').
#![tactic(auto)]

ghost use Rattle.std.specs.Prelude.{◌≡◌, ◌<◌};
ghost use Rattle.whole.specs.Within.{Within};
ghost use Rattle.positions.specs.Bounds.{Margins, Nets};
ghost use Rattle.holdings.specs.Holdings.{new_holdings, with_limits, with_special, with_trade, basis};
ghost use Rattle.holdings.specs.Limits.{is_over, totals_of, by_totals, side_of};
ghost use Rattle.holdings.specs.Bounds.{Granted, GoodReference, Sound};

use positions::{Position, is_beyond, no_positions, with_deal};
use totals::total;

// The clearing limit, in lots, and the tolerance, in fen.
#[derive(Clone, Copy)]
pub struct Limits {
    pub clearing: u64,
    pub tolerance: i64,
}

// The limits in force and as last set, the core, the special margin, the total and the variation of the last close, and the
// positions by contract row.
#[derive(Clone, Copy)]
pub struct Holdings {
    pub limits: Limits,
    pub coming: Limits,
    pub core: i64,
    pub special: i64,
    pub dayend: i64,
    pub variation: i64,
    pub positions: [Position; 6],
}

// What a trade shows of one side: its total before and after, and its limit.
#[derive(Clone, Copy)]
pub struct Totals {
    pub before: i64,
    pub after: i64,
    pub limit: i64,
}

// What one side says of a trade: it passes, the net is beyond what it may be, or it is over the limit. No Result: both sides are weighed
// together, and one over its limit has its totals too.
#[derive(Clone, Copy)]
pub enum Side {
    Passes(Totals),
    Beyond,
    Over(Totals),
}

// The clearing limit at the reference rate.
pub fn basis(limits: Limits, reference: u64) -> i64
    requires { Granted limits × GoodReference reference }
    ensures { result ≡ basis limits reference }
{
    (limits.clearing * reference) as i64
}

// What a new account holds.
pub fn new_holdings(limits: Limits, reference: u64) -> Holdings
    requires { Granted limits × GoodReference reference }
    ensures { result ≡ new_holdings limits reference }
{
    let core = basis(limits, reference);
    let positions = no_positions();
    Holdings {
        limits,
        coming: limits,
        core,
        special: 0,
        dayend: 0,
        variation: 0,
        positions,
    }
}

// Limits set, to come into force at the next close.
pub fn with_limits(h: Holdings, limits: Limits) -> Holdings
    ensures { result ≡ with_limits h limits }
{
    let mut x = h;
    x.coming = limits;
    x
}

// A special margin set, in the place of the old one.
pub fn with_special(h: Holdings, special: i64) -> Holdings
    ensures { result ≡ with_special h special }
{
    let mut x = h;
    x.special = special;
    x
}

// One side of a trade: lots bought, or sold where below 0, at a rate.
pub fn with_trade(h: Holdings, row: usize, lots: i64, rate: i64) -> Holdings
    requires { Sound 10000 h × ((row < 6) × (Within 1000 lots × Within 100000 rate)) }
    ensures { result ≡ with_trade h row lots rate }
{
    let p = h.positions;
    let positions = with_deal(p, row, lots, rate);
    let mut x = h;
    x.positions = positions;
    x
}

// Whether a trade takes a side over its limit: above the limit, and above where it was.
pub fn is_over(t: Totals) -> bool
    ensures { result ≡ is_over t }
{
    if t.limit < t.after {
        return t.before < t.after;
    }
    false
}

// The totals before and after a trade, and the limit.
pub fn totals_of(h: Holdings, after: Holdings, margins: [u64; 6]) -> Totals
    requires { Sound 10000 h × (Nets 21000 after.positions × Margins margins) }
    ensures { result ≡ totals_of margins h after }
{
    let p = h.positions;
    let q = after.positions;
    let then = total(p, margins);
    let now = total(q, margins);
    let limits = h.limits;
    Totals {
        before: then,
        after: now,
        limit: h.core + limits.tolerance,
    }
}

// What the totals say of a trade.
fn by_totals(t: Totals) -> Side
    ensures { result ≡ by_totals t }
{
    if is_over(t) {
        return Side::Over(t);
    }
    Side::Passes(t)
}

// What one side says of a trade in the contract of a row, from what it holds before and after it.
pub fn side_of(h: Holdings, after: Holdings, row: usize, margins: [u64; 6]) -> Side
    requires { Sound 10000 h × ((row < 6) × (Nets 21000 after.positions × Margins margins)) }
    ensures { result ≡ side_of margins row h after }
{
    let q = after.positions;
    let p = q[row];
    if is_beyond(p) {
        return Side::Beyond;
    }
    let t = totals_of(h, after, margins);
    by_totals(t)
}
