// The totals that a trade would give one of its sides, whether or not it would be accepted.
ghost use Rattle.std.specs.Prelude.{◌≡◌};
ghost use Rattle.model.specs.Effects.{lots_for};
ghost use Rattle.model.specs.Ranged.{GoodTrade};
ghost use Rattle.model.specs.Refusals.{side_totals};
ghost use Rattle.dealing.specs.Dealing.{trade_of};
ghost use Rattle.standing.specs.Standing.{view};
ghost use Rattle.standing.specs.Made.{Sound};
ghost use Rattle.particulars.specs.Particulars.{IsSide, asked_in};
ghost use Rattle.particulars.specs.Proposed.{Proposed};

use dealing::Deal;
use holdings::{Totals, totals_of, with_trade};
use hours::is_open;
use memory::{find_account, find_contract, load_account, load_header, load_margins};

// The lots of a side, sold below 0. An account that is both sides buys.
fn lots_of(t: Deal, number: u64) -> i64
    requires { GoodTrade (trade_of t) × IsSide (trade_of t) number }
    ensures { result ≡ lots_for (trade_of t) number }
{
    let lots = t.lots as i64;
    if number == t.buyer {
        return lots;
    }
    0 - lots
}

// The totals of the account of row i, which is a side, after a trade in the contract of row k.
fn side_totals(counts: &[u64], money: &[i64], t: Deal, number: u64, k: usize, i: usize) -> Totals
    requires { Proposed counts.now money.now (trade_of t) number k i }
    ensures { result ≡ side_totals (view counts.now money.now) (trade_of t) number }
{
    let rate = t.rate;
    let a = load_account(counts, money, i);
    let margins = load_margins(counts);
    let lots = lots_of(t, number);
    let held = a.holdings;
    let after = with_trade(held, k, lots, rate);
    totals_of(held, after, margins)
}

// The same, if the day is open, the code listed and the account enrolled.
pub(crate) fn asked(counts: &[u64], money: &[i64], t: Deal, number: u64) -> Option<Totals>
    requires { Sound counts.now money.now × (GoodTrade (trade_of t) × IsSide (trade_of t) number) }
    ensures { result ≡ asked_in (view counts.now money.now) (trade_of t) number }
{
    let h = load_header(counts);
    if !is_open(h.point) {
        return None;
    }
    let k = find_contract(counts, t.code)?;
    let i = find_account(counts, number)?;
    Some(side_totals(counts, money, t, number, k, i))
}
