// An account: what it holds and what it has, joined where document 01 joins them (document 01, 'Trade', 'Close' and 'Refresh').
#![tactic(auto)]

ghost use Rattle.std.specs.Prelude.{◌≡◌};
ghost use Rattle.funds.specs.Bounds.{days_most};
ghost use Rattle.holdings.specs.Bounds.{Granted, GoodReference};
ghost use Rattle.closing.specs.Bounds.{GoodDayEnd};
ghost use Rattle.accounts.specs.Accounts.{new_account, closed, refreshed};
ghost use Rattle.accounts.specs.Bounds.{Sound};

use closing::{DayEnd, at_close, requirement, with_core_by, with_full_core};
use funds::{Funds, billed, new_funds};
use holdings::{Holdings, Limits, new_holdings};

#[derive(Clone, Copy)]
pub struct Account {
    pub number: u64,
    pub holdings: Holdings,
    pub funds: Funds,
}

// A new account.
pub fn new_account(number: u64, limits: Limits, reference: u64) -> Account
    requires { Granted limits × GoodReference reference }
    ensures { result ≡ new_account number limits reference }
{
    let holdings = new_holdings(limits, reference);
    let funds = new_funds();
    Account {
        number,
        holdings,
        funds,
    }
}

// The close of one account.
pub fn close_account(a: Account, d: DayEnd) -> Account
    requires { Sound 10000 days_most a × GoodDayEnd d }
    ensures { result ≡ closed d a }
{
    let before = a.holdings;
    let had = a.funds;
    let h = at_close(before, d);
    let asked = requirement(h, d.reference, d.multiplier);
    let booked = h.variation;
    let funds = billed(had, booked, asked);
    let free = funds.free;
    let holdings = with_core_by(h, d.reference, free);
    Account {
        number: a.number,
        holdings,
        funds,
    }
}

// The core refreshed, unless the account is in default.
pub fn refresh_account(a: Account, reference: u64) -> Account
    requires { Granted a.holdings.limits × GoodReference reference }
    ensures { result ≡ refreshed reference a }
{
    let funds = a.funds;
    if funds.flag {
        return a;
    }
    let h = a.holdings;
    let holdings = with_full_core(h, reference);
    let mut x = a;
    x.holdings = holdings;
    x
}
