// The lines that an accepted close adds: rates by code, accounts by number, the house.
ghost use Rattle.std.specs.Prelude.{◌+◌, ◌≤◌, length};
ghost use Rattle.decimal.specs.Put.{Put};
ghost use Rattle.model.specs.Answers.{report_of};
ghost use Rattle.standing.specs.Standing.{view};
ghost use Rattle.standing.specs.Made.{Sound};
ghost use Rattle.lines.specs.Lines.{rate_line, as_bill, account_line, house_line, code_lines, member_lines, report_lines};

use crate::parts::{put_end, put_field, put_signed_field};
use decimal::put_word;
use memory::{COUNTS, MONEY};
use rates::{Settled, number_of};
use reports::{Bill, bill_of, house_of, member_from, rate_of, settled_code_from};

// Puts what a close found for a code.
fn put_rate(room: &mut [u8], at: usize, code: u64, found: Settled) -> usize
    requires { at + 96 ≤ length room.old }
    ensures { Put room.old at (rate_line code found) result room.new }
{
    let first = put_word(room, at, b"rate");
    let second = put_field(room, first, code);
    let third = put_signed_field(room, second, found.rate);
    let fourth = put_field(room, third, number_of(found.rule));
    let last = put_field(room, fourth, found.used);
    put_end(room, last)
}

// Puts what a close left an account with.
fn put_account(room: &mut [u8], at: usize, number: u64, bill: Bill) -> usize
    requires { at + 120 ≤ length room.old }
    ensures { Put room.old at (account_line number (as_bill bill)) result room.new }
{
    let first = put_word(room, at, b"account");
    let second = put_field(room, first, number);
    let third = put_signed_field(room, second, bill.variation);
    let fourth = put_signed_field(room, third, bill.due);
    let fifth = put_signed_field(room, fourth, bill.requirement);
    let last = put_signed_field(room, fifth, bill.free);
    put_end(room, last)
}

// Puts the balance of the house.
fn put_house(room: &mut [u8], at: usize, balance: i64) -> usize
    requires { at + 30 ≤ length room.old }
    ensures { Put room.old at (house_line balance) result room.new }
{
    let next = put_word(room, at, b"house");
    let last = put_signed_field(room, next, balance);
    put_end(room, last)
}

// Puts the rates of the last close, by code.
fn put_rates(counts: &[u64; COUNTS], money: &[i64; MONEY], room: &mut [u8], at: usize) -> usize
    requires { Sound counts.now money.now × (at + 600 ≤ length room.old) }
    ensures { Put room.old at (code_lines (report_of (view counts.now money.now))) result room.new }
{
    let mut next = at;
    // No index: the codes come in rising order, each the lowest behind the one before.
    let mut from = 0;
    while let Some(code) = settled_code_from(counts, money, from) {
        let Some(found) = rate_of(counts, money, code) else {
            return next;
        };
        next = put_rate(room, next, code, found);
        from = code + 1;
    }
    next
}

// Puts the accounts as the last close left them, by number.
fn put_accounts(counts: &[u64; COUNTS], money: &[i64; MONEY], room: &mut [u8], at: usize) -> usize
    requires { Sound counts.now money.now × (at + 7680 ≤ length room.old) }
    ensures { Put room.old at (member_lines (report_of (view counts.now money.now))) result room.new }
{
    let mut next = at;
    // No index: the accounts come in rising order, each the lowest behind the one before.
    let mut from = 0;
    while let Some(number) = member_from(counts, money, from) {
        let Some(bill) = bill_of(counts, money, number) else {
            return next;
        };
        next = put_account(room, next, number, bill);
        from = number + 1;
    }
    next
}

// Puts all that a close adds after its day.
pub(crate) fn put_report(
    counts: &[u64; COUNTS],
    money: &[i64; MONEY],
    room: &mut [u8],
    at: usize,
) -> usize
    requires { Sound counts.now money.now × (at + 8310 ≤ length room.old) }
    ensures { Put room.old at (report_lines (report_of (view counts.now money.now))) result room.new }
{
    let rated = put_rates(counts, money, room, at);
    let billed = put_accounts(counts, money, room, rated);
    let balance = house_of(counts, money);
    put_house(room, billed, balance)
}
