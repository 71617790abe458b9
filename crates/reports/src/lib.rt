// What the book shows until the next close: the last close's rate, rule and count by code; variation, due, requirement and free by
// account number; the day and the house (document 01, 'A printed day'). Codes and account numbers are gone through from the lowest on.
#![tactic(auto)]

mod account_lines;
mod order;
mod rate_lines;

ghost use Rattle.std.specs.Prelude.{◌≡◌};
ghost use Rattle.standing.specs.Standing.{view};
ghost use Rattle.standing.specs.Made.{Sound};
ghost use Rattle.reports.specs.Reports.{rated_in, billed_in, lowest_from};

use account_lines::billed;
use memory::{COUNTS, MONEY, load_header, load_house};
use order::{lowest_code, lowest_member};
use rate_lines::rated;
use rates::Settled;

// "account, day's variation, due, requirement, free"
#[derive(Clone, Copy)]
pub struct Bill {
    pub variation: i64,
    pub due: i64,
    pub requirement: i64,
    pub free: i64,
}

// The last close's rate of a code, the rule that gave it and how many trades or counted quotes it used.
pub fn rate_of(counts: &[u64; COUNTS], money: &[i64; MONEY], code: u64) -> Option<Settled>
    requires { Sound counts.now money.now }
    ensures { result ≡ rated_in (view counts.now money.now) code }
{
    rated(counts, money, code)
}

// An account's variation of the last close, what it is due, its requirement and what is free.
pub fn bill_of(counts: &[u64; COUNTS], money: &[i64; MONEY], number: u64) -> Option<Bill>
    requires { Sound counts.now money.now }
    ensures { result ≡ billed_in (view counts.now money.now) number }
{
    billed(counts, money, number)
}

// The lowest code of the last close from a code on.
pub fn settled_code_from(counts: &[u64; COUNTS], money: &[i64; MONEY], code: u64) -> Option<u64>
    requires { Sound counts.now money.now }
    ensures { result ≡ lowest_from code (view counts.now money.now).results.codes }
{
    lowest_code(counts, code)
}

// The lowest account number from a number on.
pub fn member_from(counts: &[u64; COUNTS], money: &[i64; MONEY], number: u64) -> Option<u64>
    requires { Sound counts.now money.now }
    ensures { result ≡ lowest_from number (view counts.now money.now).accounts.members }
{
    lowest_member(counts, number)
}

// The day that is open or was closed last.
pub fn day_of(counts: &[u64; COUNTS], money: &[i64; MONEY]) -> u64
    requires { Sound counts.now money.now }
    ensures { result ≡ (view counts.now money.now).today.day }
{
    load_header(counts).day
}

// The balance of the house account.
pub fn house_of(counts: &[u64; COUNTS], money: &[i64; MONEY]) -> i64
    requires { Sound counts.now money.now }
    ensures { result ≡ (view counts.now money.now).house }
{
    load_house(money)
}
