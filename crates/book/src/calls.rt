// One record on a book.
ghost use Rattle.std.specs.Prelude.{◌≡◌, [], ◌≤◌, get_or};
ghost use Rattle.records.specs.Records.{entry};
ghost use Rattle.memory.specs.Memory.{Holds};
ghost use Rattle.model.specs.Book.{new};
ghost use Rattle.model.specs.Calls.{call_of};
ghost use Rattle.model.specs.Ranged.{Ranged};
ghost use Rattle.standing.specs.Standing.{rows_of};
ghost use Rattle.standing.specs.Made.{Sound, Made};
ghost use Rattle.refusals.specs.Refusals.{outcome_number};
ghost use Rattle.book.specs.Called.{Called};
ghost use Rattle.book.specs.Answered.{numbered as numbered_as, dealt as dealt_as, opened as opened_as, Answered};
ghost use Rattle.book.specs.Taken.{limits_in, rates_in, margins_in, deal_in};

use day_end::close;
use dealing::{Deal, Dealt, trade};
use fields::WIDTH;
use folding::unfold;
use holdings::{Limits, Totals};
use keeping::{enrol, set_limits, set_special, start};
use memory::{COUNTS, MONEY, clear};
use opening::{OpenError, open_day};
use payments::{pay_in, pay_out, release};
use quoting::quote;
use ranges::in_range;
use refusals::Refusal;
use settling::{refresh, settle};
use std::array;

// What a call answers: the number of its refusal; for an open that is not the next working day, which is refusal 20, the day that is; that it
// is done; for a trade the buyer's and the seller's total before, total after and limit; for a close that it is done and its report can be read.
#[derive(Clone, Copy)]
pub enum Answer {
    Refused(u64),
    NotNext(u64),
    Done,
    BothSides(Totals, Totals),
    Closed,
}

// Memory of a new book.
pub fn new_book(counts: &mut [u64; COUNTS], money: &mut [i64; MONEY])
    ensures { Holds counts.new money.new (rows_of new) }
{
    clear(counts, money)
}

// What a call answers: `accepted`, or the number of its refusal.
fn numbered(outcome: Result<(), Refusal>, accepted: Answer) -> Answer
    ensures { result ≡ numbered_as accepted (outcome_number outcome) }
{
    match outcome {
        Ok(()) => accepted,
        Err(refusal) => Answer::Refused(refusal.number()),
    }
}

fn dealt(outcome: Result<Dealt, Refusal>) -> Answer
    ensures { result ≡ dealt_as outcome }
{
    match outcome {
        Ok(d) => Answer::BothSides(d.buyer, d.seller),
        Err(refusal) => Answer::Refused(refusal.number()),
    }
}

fn opened(outcome: Result<(), OpenError>) -> Answer
    ensures { result ≡ opened_as outcome }
{
    match outcome {
        Ok(()) => Answer::Done,
        Err(OpenError::Refused(refusal)) => Answer::Refused(refusal.number()),
        Err(OpenError::NotNext(day)) => Answer::NotNext(day),
    }
}

fn limits_in(fields: [u64; WIDTH]) -> Limits
    requires { get_or fields 2 0 ≤ 100000000000000 }
    ensures { result ≡ limits_in fields }
{
    Limits {
        clearing: fields[1],
        tolerance: fields[2] as i64,
    }
}

// The records that name an account, and the start: kinds 0 to 6.
fn call_account(
    counts: &mut [u64; COUNTS],
    money: &mut [i64; MONEY],
    kind: u64,
    fields: [u64; WIDTH],
    exceptions: &[u64],
) -> Result<(), Refusal>
    requires { Sound counts.old money.old × (Ranged (call_of (entry kind fields exceptions.now)) × (kind ≤ 6)) }
    ensures { Made counts.old money.old (call_of (entry kind fields exceptions.now)) (outcome_number result) counts.new money.new }
{
    let account = fields[0];
    let amount = fields[1];
    match kind {
        0 => start(counts, money, account, amount, exceptions),
        1 => {
            let limits = limits_in(fields);
            enrol(counts, money, account, limits)
        }
        2 => pay_in(counts, money, account, amount),
        3 => pay_out(counts, money, account, amount),
        4 => release(counts, money, account, amount),
        5 => set_special(counts, money, account, amount),
        _ => {
            let limits = limits_in(fields);
            set_limits(counts, money, account, limits)
        }
    }
}

fn rates_in(fields: [u64; WIDTH]) -> [i64; 6]
    ensures { result ≡ rates_in fields }
{
    array::from_fn(|k| unfold(fields[k + 1]))
}

fn margins_in(fields: [u64; WIDTH]) -> [u64; 6]
    ensures { result ≡ margins_in fields }
{
    array::from_fn(|k| fields[k + 7])
}

pub fn deal_in(fields: [u64; WIDTH]) -> Deal
    ensures { result ≡ deal_in fields }
{
    let rate = unfold(fields[5]);
    Deal {
        time: fields[0],
        code: fields[1],
        buyer: fields[2],
        seller: fields[3],
        lots: fields[4],
        rate,
    }
}

// The records of the day: kinds 7 to 12.
fn call_day(
    counts: &mut [u64; COUNTS],
    money: &mut [i64; MONEY],
    kind: u64,
    fields: [u64; WIDTH],
) -> Answer
    requires { Sound counts.old money.old × (Ranged (call_of (entry kind fields [])) × (7 ≤ kind)) }
    ensures { Answered counts.old money.old (call_of (entry kind fields [])) result counts.new money.new }
{
    match kind {
        7 => {
            let rates = rates_in(fields);
            let margins = margins_in(fields);
            opened(open_day(counts, money, fields[0], rates, margins))
        }
        8 => {
            let t = deal_in(fields);
            dealt(trade(counts, money, t))
        }
        9 => {
            let rate = unfold(fields[3]);
            numbered(
                quote(counts, money, fields[0], fields[1], fields[2], rate),
                Answer::Done,
            )
        }
        10 => numbered(settle(counts, money), Answer::Done),
        11 => numbered(refresh(counts, money), Answer::Done),
        _ => {
            let last = unfold(fields[0]);
            numbered(close(counts, money, last), Answer::Closed)
        }
    }
}

// A record on a book, with any values.
pub fn call(
    counts: &mut [u64; COUNTS],
    money: &mut [i64; MONEY],
    kind: u64,
    fields: [u64; WIDTH],
    exceptions: &[u64],
) -> Answer
    requires { Sound counts.old money.old }
    ensures { Called counts.old money.old (entry kind fields exceptions.now) result counts.new money.new }
{
    if let Err(refused) = in_range(kind, fields, exceptions) {
        return Answer::Refused(refused.number());
    }
    if kind <= 6 {
        return numbered(
            call_account(counts, money, kind, fields, exceptions),
            Answer::Done,
        );
    }
    call_day(counts, money, kind, fields)
}
