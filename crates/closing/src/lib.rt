// What a close makes of what an account holds, what it then requires, and the core that follows (document 01, 'Close' and
// 'Refresh').
#![tactic(auto)]

ghost use Rattle.std.specs.Prelude.{◌≡◌, ◌≤◌};
ghost use Rattle.whole.specs.Amounts.{Amount};
ghost use Rattle.holdings.specs.Bounds.{Granted, GoodReference, Sound};
ghost use Rattle.closing.specs.DayEnd.{at_close, over_limit, requirement, full_core, with_core, with_core_by};
ghost use Rattle.closing.specs.Bounds.{GoodDayEnd};

use booking::{all_carried, variation};
use holdings::{Holdings, basis};
use positions::Mark;
use totals::total;
use whole::{hundredth_up, larger, smaller};

// What a close has for every account: how each contract is marked, the margin rates, the reference rate and the multiplier.
#[derive(Clone, Copy)]
pub struct DayEnd {
    pub marks: [Mark; 6],
    pub margins: [u64; 6],
    pub reference: u64,
    pub multiplier: u64,
}

// The first half of a close: limits come into force, variation is found, ending positions go, and the day-end total is taken at
// the positions left.
pub fn at_close(h: Holdings, d: DayEnd) -> Holdings
    requires { Sound 10000 h × GoodDayEnd d }
    ensures { result ≡ at_close d h }
{
    let positions = all_carried(h.positions, d.marks);
    let dayend = total(positions, d.margins);
    Holdings {
        limits: h.coming,
        dayend,
        variation: variation(h.positions, d.marks),
        positions,
        ..h
    }
}

// What a total asks beyond the basis: the excess at the multiplier, in hundredths, rounded up.
pub fn over_limit(total: i64, basis: i64, multiplier: u64) -> i64
    requires { Amount 12000000000000 total × (Amount 100000000000000 basis × (multiplier ≤ 1000)) }
    ensures { result ≡ over_limit total basis multiplier }
{
    hundredth_up(larger(total - basis, 0) * multiplier as i64)
}

// The requirement after a close.
pub fn requirement(h: Holdings, reference: u64, multiplier: u64) -> i64
    requires { Sound 10000 h × (GoodReference reference × (multiplier ≤ 1000)) }
    ensures { result ≡ requirement h reference multiplier }
{
    let least = basis(h.limits, reference);
    least + over_limit(h.dayend, least, multiplier) + h.special
}

// The core of an account that has its margin: the basis, or the day-end total where that is more.
fn full_core(h: Holdings, reference: u64) -> i64
    requires { Granted h.limits × GoodReference reference }
    ensures { result ≡ full_core h reference }
{
    larger(basis(h.limits, reference), h.dayend)
}

// The core refreshed.
pub fn with_full_core(h: Holdings, reference: u64) -> Holdings
    requires { Granted h.limits × GoodReference reference }
    ensures { result ≡ with_core h (full_core h reference) }
{
    Holdings {
        core: full_core(h, reference),
        ..h
    }
}

// The second half of a close: the core by the sign of free. Where margin is missing it is not raised.
pub fn with_core_by(h: Holdings, reference: u64, free: i64) -> Holdings
    requires { Granted h.limits × GoodReference reference }
    ensures { result ≡ with_core_by h reference free }
{
    let full = full_core(h, reference);
    Holdings {
        core: if 0 <= free {
            full
        } else {
            smaller(full, h.core)
        },
        ..h
    }
}
