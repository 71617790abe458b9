// One record of a file that is followed: called on the book, with what the explanation needs of it kept.
ghost use Rattle.std.specs.Prelude.{◌*◌, ◌<◌, ◌≤◌, ◌≡◌, length};
ghost use Rattle.model.specs.Ranged.{GoodTrade};
ghost use Rattle.standing.specs.Made.{Sound};
ghost use Rattle.dealing.specs.Dealing.{trade_of};
ghost use Rattle.desk.specs.Follows.{Followable};
ghost use Rattle.explaining.specs.States.{Further};

use book::{Answer, deal_in};
use dealing::Deal;
use desk::{Line, close_lines, follow};
use fields::WIDTH;
use holdings::Totals;
use memory::{COUNTS, MONEY};
use pages::{Close, Contract, LISTED, Notes, Question, is_shown, put_close, put_refused};
use particulars::{Stood, parts_of, standing_of, totals_asked};
use ranges::in_range;
use rates::number_of;
use records::{Malformed, read_record};
use reports::{bill_of, day_of};
use std::array;

// What was found of the close that is asked for.
#[derive(Clone, Copy)]
pub(crate) enum Found {
    NoClose,
    NoAccount(u64),
    NoContract(u64),
    Page(usize),
}

// How far a block of the file is followed. Of the day: the rows of the account's trades and its
// refused trades. And what was found.
#[derive(Clone, Copy)]
pub(crate) struct State {
    pub at: usize,
    pub rows: usize,
    pub notes: Notes,
    pub found: Found,
}

// Before the first record.
pub(crate) fn first_state() -> State
    ensures { result.rows ≡ 0 }
{
    State {
        at: 0,
        rows: 0,
        notes: Notes {
            used: 0,
            refused: 0,
        },
        found: Found::NoClose,
    }
}

// What an account was due, 0 where there is none.
fn unpaid_of(counts: &[u64; COUNTS], money: &[i64; MONEY], account: u64) -> i64
    requires { Sound counts.now money.now }
{
    bill_of(counts, money, account).map_or(0, |bill| bill.due)
}

// The totals that a trade in range would give the account, if it is a side.
fn side_asked(counts: &[u64; COUNTS], money: &[i64; MONEY], t: Deal, account: u64) -> Option<Totals>
    requires { Sound counts.now money.now × GoodTrade (trade_of t) }
{
    if account == t.buyer || account == t.seller {
        return totals_asked(counts, money, t, account);
    }
    None
}

// The totals that a trade refused under 14 would have given the account.
fn asked_of(
    counts: &[u64; COUNTS],
    money: &[i64; MONEY],
    fields: [u64; WIDTH],
    account: u64,
    number: u64,
) -> Option<Totals>
    requires { Sound counts.now money.now }
{
    if number != 14 {
        return None;
    }
    let Ok(()) = in_range(8, fields, &[]) else {
        return None;
    };
    side_asked(counts, money, deal_in(fields), account)
}

// Notes a refused trade that names the account, if its code is shown and the list is not full.
fn noted(
    counts: &[u64; COUNTS],
    money: &[i64; MONEY],
    room: &mut [u8],
    n: Notes,
    q: Question,
    fields: [u64; WIDTH],
    number: u64,
) -> Notes
    requires { Sound counts.now money.now }
{
    let t = deal_in(fields);
    if !is_named(t.buyer, t.seller, q.account) {
        return n;
    }
    if !is_shown(q, t.code) {
        return n;
    }
    let refused = n.refused.saturating_add(1);
    if LISTED <= n.refused {
        return Notes {
            used: n.used,
            refused,
        };
    }
    let asked = asked_of(counts, money, fields, q.account, number);
    let used = put_refused(room, n.used, t, q.account, number, asked);
    Notes { used, refused }
}

// Whether an account is one of two.
fn is_named(buyer: u64, seller: u64, account: u64) -> bool {
    buyer == account || seller == account
}

// The notes after an answer to a record that is no close.
fn notes_after(
    counts: &[u64; COUNTS],
    money: &[i64; MONEY],
    room: &mut [u8],
    n: Notes,
    q: Question,
    kind: u64,
    fields: [u64; WIDTH],
    answer: Answer,
) -> Notes
    requires { Sound counts.now money.now }
{
    if kind != 8 {
        return n;
    }
    let Answer::Refused(number) = answer else {
        return n;
    };
    noted(counts, money, room, n, q, fields, number)
}

// A record that is no close.
fn take_call(
    counts: &mut [u64; COUNTS],
    money: &mut [i64; MONEY],
    labels: &mut [u64],
    amounts: &mut [i64],
    room: &mut [u8],
    bytes: &[u8],
    q: Question,
    s: &mut State,
) -> Result<(), Malformed>
    requires at_in_bounds { s.old.at < length bytes.now }
    requires followable { Followable q.account counts.old money.old labels.old amounts.old s.old.rows }
    ensures followable_2 { Followable q.account counts.new money.new labels.new amounts.new s.new.rows }
    ensures further { Further (length bytes.now) s.old s.new result }
{
    let read = read_record(bytes, s.at)?;
    let taken = follow(
        counts, money, labels, amounts, s.rows, bytes, s.at, q.account,
    )?;
    s.notes = notes_after(
        counts,
        money,
        room,
        s.notes,
        q,
        read.kind,
        read.fields,
        taken.answer,
    );
    s.at = taken.next;
    s.rows = taken.rows;
    Ok(())
}

// Whether a close is the one that is asked for: that of the day, or the last one so far.
fn is_wanted(q: Question, day: u64) -> bool {
    q.day.is_none_or(|asked| day == asked)
}

// Whether the code that is asked for was listed.
fn is_listed(q: Question, contracts: [Contract; 6]) -> bool {
    q.code.is_none_or(|code| contracts.iter().any(|contract| contract.stood.code == code))
}

// What is explained of a contract.
fn contract_of(stood: Stood, line: Line) -> Contract {
    Contract {
        stood,
        rate: line.settled.rate,
        rule: number_of(line.settled.rule),
        used: line.settled.used,
        carried: line.carried,
        sum: line.sum,
    }
}

// The same of the six.
fn contracts_of(before: [Stood; 6], lines: [Line; 6]) -> [Contract; 6] {
    array::from_fn(|k| contract_of(before[k], lines[k]))
}

// Explains an accepted close on the page, if it can be explained.
fn explained(
    counts: &[u64; COUNTS],
    money: &[i64; MONEY],
    labels: &[u64],
    amounts: &[i64],
    room: &[u8],
    page: &mut [u8],
    q: Question,
    s: State,
    contracts: [Contract; 6],
    unpaid: i64,
) -> Found
    requires sound { Sound counts.now money.now }
    requires rows_in_bounds { (s.rows * 3 ≤ length labels.now) × (s.rows * 6 ≤ length amounts.now) }
{
    let day = day_of(counts, money);
    let found = s.found;
    if !is_wanted(q, day) {
        return found;
    }
    let Some(bill) = bill_of(counts, money, q.account) else {
        return Found::NoAccount(day);
    };
    let Some(parts) = parts_of(counts, money, q.account) else {
        return Found::NoAccount(day);
    };
    if !is_listed(q, contracts) {
        return Found::NoContract(day);
    }
    let x = Close {
        day,
        contracts,
        unpaid,
        bill,
        parts,
    };
    let rows = s.rows;
    let length = put_close(page, labels, amounts, rows, x, room, s.notes, q);
    Found::Page(length)
}

// A record that begins as a close. After an accepted one the next day has no trades yet, accepted or refused.
fn take_close(
    counts: &mut [u64; COUNTS],
    money: &mut [i64; MONEY],
    labels: &mut [u64],
    amounts: &mut [i64],
    room: &[u8],
    page: &mut [u8],
    bytes: &[u8],
    q: Question,
    s: &mut State,
) -> Result<(), Malformed>
    requires at_in_bounds { s.old.at < length bytes.now }
    requires followable { Followable q.account counts.old money.old labels.old amounts.old s.old.rows }
    ensures followable_2 { Followable q.account counts.new money.new labels.new amounts.new s.new.rows }
    ensures further { Further (length bytes.now) s.old s.new result }
{
    let before = standing_of(counts, money, q.account);
    let unpaid = unpaid_of(counts, money, q.account);
    let taken = follow(
        counts, money, labels, amounts, s.rows, bytes, s.at, q.account,
    )?;
    let Answer::Closed = taken.answer else {
        s.at = taken.next;
        s.rows = taken.rows;
        return Ok(());
    };
    let lines = close_lines(counts, money, labels, amounts, s.rows, before);
    let contracts = contracts_of(before, lines);
    let found = explained(
        counts, money, labels, amounts, room, page, q, *s, contracts, unpaid,
    );
    *s = State {
        at: taken.next,
        found,
        ..first_state()
    };
    Ok(())
}

// The record at the state's place. Where none stands, the state stays.
pub(crate) fn take_record(
    counts: &mut [u64; COUNTS],
    money: &mut [i64; MONEY],
    labels: &mut [u64],
    amounts: &mut [i64],
    room: &mut [u8],
    page: &mut [u8],
    bytes: &[u8],
    q: Question,
    s: &mut State,
) -> Result<(), Malformed>
    requires at_in_bounds { s.old.at < length bytes.now }
    requires followable { Followable q.account counts.old money.old labels.old amounts.old s.old.rows }
    ensures followable_2 { Followable q.account counts.new money.new labels.new amounts.new s.new.rows }
    ensures further { Further (length bytes.now) s.old s.new result }
{
    if bytes[s.at] == 12 {
        return take_close(counts, money, labels, amounts, room, page, bytes, q, s);
    }
    take_call(counts, money, labels, amounts, room, bytes, q, s)
}
