// The lines `account` of a printed day: what is shown of a row of the accounts.
ghost use Rattle.std.specs.Prelude.{◌≡◌};
ghost use Rattle.standing.specs.Standing.{view};
ghost use Rattle.standing.specs.Made.{Sound};
ghost use Rattle.reports.specs.Reports.{bill_at, billed_in};

use crate::Bill;
use accounts::Account;
use memory::{find_account, load_account};

// What is shown of an account.
fn bill_in(a: Account) -> Bill
    ensures { result ≡ bill_at a }
{
    Bill {
        variation: a.holdings.variation,
        due: a.funds.due,
        requirement: a.funds.requirement,
        free: a.funds.free,
    }
}

// What is shown of the account of a number, if there is one.
pub(crate) fn billed(counts: &[u64], money: &[i64], number: u64) -> Option<Bill>
    requires { Sound counts.now money.now }
    ensures { result ≡ billed_in (view counts.now money.now) number }
{
    let i = find_account(counts, number)?;
    let a = load_account(counts, money, i);
    Some(bill_in(a))
}
