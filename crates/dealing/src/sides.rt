// The two sides of a trade: their accounts after it, and what they say of it.
ghost use Rattle.std.specs.Prelude.{◌≡◌, ◌<◌};
ghost use Rattle.whole.specs.Within.{Within};
ghost use Rattle.positions.specs.Bounds.{Margins};
ghost use Rattle.holdings.specs.Bounds.{Sound};
ghost use Rattle.holdings.specs.Holdings.{with_trade};
ghost use Rattle.accounts.specs.Accounts.{with_holdings};
ghost use Rattle.dealing.specs.Sides.{Moved, weighed, judged};

use crate::Dealt;
use accounts::Account;
use holdings::{Side, side_of, with_trade};
use refusals::Refusal;

// An account with lots bought, or sold where below 0, at a rate.
pub(crate) fn with_lots(a: Account, row: usize, lots: i64, rate: i64) -> Account
    requires { Sound 10000 a.holdings × ((row < 6) × (Within 1000 lots × Within 100000 rate)) }
    ensures { result ≡ with_holdings a (with_trade a.holdings row lots rate) }
{
    let mut x = a;
    x.holdings = with_trade(a.holdings, row, lots, rate);
    x
}

// What both sides say together.
fn weigh(buyer: Side, seller: Side) -> Result<Dealt, Refusal>
    ensures { result ≡ weighed buyer seller }
{
    match (buyer, seller) {
        (Side::Beyond, _) | (_, Side::Beyond) => Err(Refusal::NetTooLarge),
        (Side::Over(_), _) | (_, Side::Over(_)) => Err(Refusal::OverLimit),
        (Side::Passes(buyer), Side::Passes(seller)) => Ok(Dealt { buyer, seller }),
    }
}

// What a trade in the contract of a row answers, from the accounts of both sides before and after it: refused as InDefault,
// NetTooLarge or OverLimit, in this order, or both totals.
pub(crate) fn judge(
    buyer: Account,
    bought: Account,
    seller: Account,
    sold: Account,
    row: usize,
    margins: [u64; 6],
) -> Result<Dealt, Refusal>
    requires { Moved buyer bought × (Moved seller sold × ((row < 6) × Margins margins)) }
    ensures { result ≡ judged margins row buyer bought seller sold }
{
    if buyer.funds.flag || seller.funds.flag {
        return Err(Refusal::InDefault);
    }
    let buys = side_of(buyer.holdings, bought.holdings, row, margins);
    let sells = side_of(seller.holdings, sold.holdings, row, margins);
    weigh(buys, sells)
}
