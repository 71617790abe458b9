// What is known of a trade before its two sides are asked.
ghost use Rattle.dealing.specs.Dealing.{trade_of};
ghost use Rattle.dealing.specs.Parties.{Headed, PartiesOf};

use crate::Deal;
use hours::{in_hours, is_open};
use memory::{Header, find_account, find_contract};
use refusals::Refusal;

// The rows of a trade's contract, buyer and seller.
#[derive(Clone, Copy)]
pub(crate) struct Parties {
    pub(crate) contract: usize,
    pub(crate) buyer: usize,
    pub(crate) seller: usize,
}

// They are found, or the trade is refused as NotNow, NotListed, UnknownAccount, BuyerIsSeller, OutOfHours, TooEarly or NoRoom, in
// this order.
pub(crate) fn parties_of(counts: &[u64], h: Header, t: Deal) -> Result<Parties, Refusal>
    requires { Headed counts.now h }
    ensures { PartiesOf counts.now (trade_of t) result }
{
    if !is_open(h.point) {
        return Err(Refusal::NotNow);
    }
    let contract = find_contract(counts, t.code).ok_or(Refusal::NotListed)?;
    let buyer = find_account(counts, t.buyer).ok_or(Refusal::UnknownAccount)?;
    let seller = find_account(counts, t.seller).ok_or(Refusal::UnknownAccount)?;
    if t.buyer == t.seller {
        return Err(Refusal::BuyerIsSeller);
    }
    if !in_hours(t.time) {
        return Err(Refusal::OutOfHours);
    }
    if t.time < h.clock {
        return Err(Refusal::TooEarly);
    }
    if 10000 <= h.trades {
        return Err(Refusal::NoRoom);
    }
    Ok(Parties {
        contract,
        buyer,
        seller,
    })
}
