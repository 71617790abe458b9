// The lines `rate` of a printed day: what is shown of a row of the outcomes.
ghost use Rattle.std.specs.Prelude.{◌≡◌};
ghost use Rattle.standing.specs.Standing.{rule_of, settled_of, view};
ghost use Rattle.standing.specs.Made.{Sound};
ghost use Rattle.reports.specs.Reports.{rated_in};

use memory::{Outcome, find_outcome, load_outcome};
use rates::{Rule, Settled};

// The rule of a number in document 01.
fn rule_numbered(number: u64) -> Rule
    ensures { result ≡ rule_of number }
{
    match number {
        0 => Rule::Previous,
        1 => Rule::LastHour,
        2 => Rule::LastFive,
        3 => Rule::Quotes,
        4 => Rule::Previous,
        5.. => Rule::Final,
    }
}

// What a row says.
fn settled_in(x: Outcome) -> Settled
    ensures { result ≡ settled_of x }
{
    Settled {
        rate: x.rate,
        rule: rule_numbered(x.rule),
        used: x.used,
    }
}

// What the row of a code says, if there is one.
pub(crate) fn rated(counts: &[u64], money: &[i64], code: u64) -> Option<Settled>
    requires { Sound counts.now money.now }
    ensures { result ≡ rated_in (view counts.now money.now) code }
{
    let k = find_outcome(counts, code)?;
    let x = load_outcome(counts, money, k);
    Some(settled_in(x))
}
