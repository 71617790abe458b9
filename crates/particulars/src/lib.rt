// What a desk is told besides its bill: how the contracts stood before a close and what was carried into the day, the parts of its
// requirement, and the totals that a trade would give it (document 01, 'Trade' and 'Close').
#![tactic(auto)]

mod carried;
mod proposed;
mod required;

ghost use Rattle.std.specs.Prelude.{◌≡◌};
ghost use Rattle.model.specs.Ranged.{GoodTrade};
ghost use Rattle.dealing.specs.Dealing.{trade_of};
ghost use Rattle.standing.specs.Standing.{view};
ghost use Rattle.standing.specs.Made.{Sound};
ghost use Rattle.particulars.specs.Particulars.{standing_of, parted_in, IsSide, asked_in};

use carried::{positions_of, stood};
use dealing::Deal;
use holdings::Totals;
use memory::{COUNTS, MONEY};
use proposed::asked;
use required::parted;

// A listed contract before a close: its code, its previous settlement rate, and the account's net before today.
#[derive(Clone, Copy)]
pub struct Stood {
    pub code: u64,
    pub previous: i64,
    pub net: i64,
}

// The parts of an account's requirement as the last close found them, and what it has.
#[derive(Clone, Copy)]
pub struct Parts {
    pub clearing: u64,
    pub reference: u64,
    pub multiplier: u64,
    pub basis: i64,
    pub total: i64,
    pub over: i64,
    pub special: i64,
    pub margin: i64,
    pub cash: i64,
    pub flag: bool,
}

// How the listed contracts stand before a close, by rising code, and what the account of a number carried into the day.
pub fn standing_of(counts: &[u64; COUNTS], money: &[i64; MONEY], number: u64) -> [Stood; 6]
    requires { Sound counts.now money.now }
    ensures { result ≡ standing_of (view counts.now money.now) number }
{
    let positions = positions_of(counts, money, number);
    stood(counts, money, positions)
}

// The parts of the requirement of the account of a number.
pub fn parts_of(counts: &[u64; COUNTS], money: &[i64; MONEY], number: u64) -> Option<Parts>
    requires { Sound counts.now money.now }
    ensures { result ≡ parted_in (view counts.now money.now) number }
{
    parted(counts, money, number)
}

// The totals before and after a trade and the limit of one of its sides, whether or not the trade would be accepted.
pub fn totals_asked(
    counts: &[u64; COUNTS],
    money: &[i64; MONEY],
    t: Deal,
    number: u64,
) -> Option<Totals>
    requires { Sound counts.now money.now × (GoodTrade (trade_of t) × IsSide (trade_of t) number) }
    ensures { result ≡ asked_in (view counts.now money.now) (trade_of t) number }
{
    asked(counts, money, t, number)
}
