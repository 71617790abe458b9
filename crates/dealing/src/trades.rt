// Trades.
ghost use Rattle.model.specs.Ranged.{GoodTrade};
ghost use Rattle.standing.specs.Made.{Sound};
ghost use Rattle.dealing.specs.Dealing.{trade_of, Traded};
ghost use Rattle.dealing.specs.Parties.{Deals};
ghost use Rattle.dealing.specs.Written.{Writable, Written};

use crate::parties::{Parties, parties_of};
use crate::sides::{judge, with_lots};
use crate::{Deal, Dealt};
use memory::{
    Header, load_account, load_contract, load_header, load_margins, store_account, store_contract,
    store_header,
};
use refusals::Refusal;
use tallies::with_trade;

// A trade in the contract's tally, and in the header's clock and number of trades.
fn write_trade(counts: &mut [u64], money: &mut [i64], h: Header, t: Deal, k: usize)
    requires { Writable counts.old money.old h (trade_of t) k }
    ensures { Written counts.old money.old h (trade_of t) k counts.new money.new }
{
    let mut x = load_contract(&counts[..], &money[..], k);
    x.tally = with_trade(x.tally, t.time, t.lots, t.rate);
    let mut g = h;
    g.clock = t.time;
    g.trades = h.trades + 1;
    store_header(&mut *counts, g);
    store_contract(&mut *counts, &mut *money, k, x);
}

// A trade in the contract and between the accounts of these rows: refused as InDefault, NetTooLarge or OverLimit, or done.
fn trade_between(
    counts: &mut [u64],
    money: &mut [i64],
    h: Header,
    t: Deal,
    rows: Parties,
) -> Result<Dealt, Refusal>
    requires { Deals counts.old money.old h (trade_of t) rows.contract rows.buyer rows.seller }
    ensures { Traded counts.old money.old (trade_of t) result counts.new money.new }
{
    let lots = t.lots as i64;
    let rate = t.rate;
    let buyer = load_account(&counts[..], &money[..], rows.buyer);
    let seller = load_account(&counts[..], &money[..], rows.seller);
    let margins = load_margins(&counts[..]);
    let bought = with_lots(buyer, rows.contract, lots, rate);
    let sold = with_lots(seller, rows.contract, 0 - lots, rate);
    let dealt = judge(buyer, bought, seller, sold, rows.contract, margins)?;
    store_account(&mut *counts, &mut *money, rows.buyer, bought);
    store_account(&mut *counts, &mut *money, rows.seller, sold);
    write_trade(&mut *counts, &mut *money, h, t, rows.contract);
    Ok(dealt)
}

// A trade: refused, and nothing is changed, or done.
pub fn trade(counts: &mut [u64], money: &mut [i64], t: Deal) -> Result<Dealt, Refusal>
    requires { Sound counts.old money.old × GoodTrade (trade_of t) }
    ensures { Traded counts.old money.old (trade_of t) result counts.new money.new }
{
    let h = load_header(&counts[..]);
    let rows = parties_of(&counts[..], h, t)?;
    trade_between(&mut *counts, &mut *money, h, t, rows)
}
