// The parts of an account's requirement, and what the account has.
ghost use Rattle.std.specs.Prelude.{◌≡◌};
ghost use Rattle.standing.specs.Standing.{view};
ghost use Rattle.standing.specs.Made.{Sound};
ghost use Rattle.particulars.specs.Particulars.{parted_in};
ghost use Rattle.particulars.specs.Required.{PartsFit, parts_at};

use crate::Parts;
use accounts::Account;
use closing::over_limit;
use holdings::basis;
use memory::{find_account, load_account, load_header};

// The parts of the requirement of an account's row.
fn parts_in(a: Account, reference: u64, multiplier: u64) -> Parts
    requires { PartsFit a reference multiplier }
    ensures { result ≡ parts_at a reference multiplier }
{
    let held = a.holdings;
    let limits = held.limits;
    let least = basis(limits, reference);
    let total = held.dayend;
    let over = over_limit(total, least, multiplier);
    let f = a.funds;
    Parts {
        clearing: limits.clearing,
        reference,
        multiplier,
        basis: least,
        total,
        over,
        special: held.special,
        margin: f.margin,
        cash: f.cash,
        flag: f.flag,
    }
}

// The parts of the requirement of the account of a number, if there is one.
pub(crate) fn parted(counts: &[u64], money: &[i64], number: u64) -> Option<Parts>
    requires { Sound counts.now money.now }
    ensures { result ≡ parted_in (view counts.now money.now) number }
{
    let i = find_account(counts, number)?;
    let a = load_account(counts, money, i);
    let h = load_header(counts);
    Some(parts_in(a, h.reference, h.multiplier))
}
