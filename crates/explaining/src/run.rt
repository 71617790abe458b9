// A file followed to its end in blocks, and the answer written.
ghost use Rattle.std.specs.Prelude.{◌+◌, ◌-◌, ◌≤◌, length};
ghost use Rattle.standing.specs.Made.{Sound};
ghost use Rattle.window.specs.Window.{Within};
ghost use Rattle.memory.specs.Memory.{Holds};
ghost use Rattle.model.specs.Book.{new};
ghost use Rattle.standing.specs.Standing.{rows_of};
ghost use Rattle.desk.specs.Follows.{Followable};
ghost use Rattle.explaining.specs.States.{Reaches, GoesOn, Ready, Carried};

use crate::followed::{Found, State, first_state, take_record};
use book::new_book;
use memory::{COUNTS, MONEY};
use pages::{Question, put_damaged, put_no_account, put_no_close, put_no_contract};
use records::Malformed;
use std::io::{Read, Write};
use std::ops::ControlFlow;
use window::{BLOCK, LONGEST, TURNS, Window, first_window, is_whole, left_of, refill};

// The numbers of the rows of a day: 10,000 trades.
const ROW_COUNTS: usize = 30000;

const ROW_MONEY: usize = 60000;

// Room for a thousand refused trades, and for all the lines of a page.
const NOTES: usize = 280000;

const PAGE: usize = 1600000;

// No record stands at a place of the file.
#[derive(Clone, Copy)]
struct Damaged {
    place: u64,
}

// What a turn leaves: a window and a state to go on with, or the state at the file's end.
type Turn = ControlFlow<Result<State, Damaged>, (Window, State)>;

// Whether another record is whole: enough bytes follow, or the file has no more.
fn is_next(s: State, end: usize, ended: bool) -> bool
    requires { s.at ≤ end }
    ensures { Ready end s result }
{
    is_whole(end - s.at, ended, LONGEST)
}

// Follows record after record of a block, until none stands there or one might be cut.
fn follow_block(
    counts: &mut [u64; COUNTS],
    money: &mut [i64; MONEY],
    labels: &mut [u64],
    amounts: &mut [i64],
    notes: &mut [u8],
    page: &mut [u8],
    bytes: &[u8],
    ended: bool,
    q: Question,
    s: &mut State,
) -> Result<(), Malformed>
    requires at_in_bounds { s.old.at ≤ length bytes.now }
    requires followable { Followable q.account counts.old money.old labels.old amounts.old s.old.rows }
    ensures followable_2 { Followable q.account counts.new money.new labels.new amounts.new s.new.rows }
    ensures reaches { Reaches (length bytes.now) s.old s.new }
{
    // No index: each record says where the next one begins.
    while is_next(*s, bytes.len(), ended) {
        take_record(counts, money, labels, amounts, notes, page, bytes, q, s)?;
    }
    Ok(())
}

// How a turn ends, by how far it came in its window.
fn turned(followed: Result<(), Malformed>, s: State, w: Window) -> Turn
    requires { (w.from ≤ s.at) × (w.place + (s.at - w.from) ≤ 18446744073709551615) }
    ensures { GoesOn w s result }
{
    if followed.is_err() {
        let place = w.place + (s.at - w.from) as u64;
        return ControlFlow::Break(Err(Damaged { place }));
    }
    match left_of(w, s.at) {
        None => ControlFlow::Break(Ok(s)),
        Some(rest) => ControlFlow::Continue((rest, s)),
    }
}

// A turn: reads on where it must and follows what it can.
fn take_turn<R: Read>(
    counts: &mut [u64; COUNTS],
    money: &mut [i64; MONEY],
    labels: &mut [u64],
    amounts: &mut [i64],
    notes: &mut [u8],
    page: &mut [u8],
    block: &mut [u8],
    input: &mut R,
    q: Question,
    before: Window,
    s: State,
) -> Turn
    requires followable { Followable q.account counts.old money.old labels.old amounts.old s.rows }
    requires within { Within (length block.old) before × ((4140 ≤ length block.old) × (length block.old ≤ 65536)) }
    requires place_bound { before.place + 65536 ≤ 18446744073709551615 }
    ensures { Carried q.account (length block.old) before.place result counts.new money.new labels.new amounts.new }
{
    let w = refill(input, block, before, LONGEST);
    let to = w.to;
    let mut last = s;
    last.at = w.from;
    let followed = follow_block(
        counts,
        money,
        labels,
        amounts,
        notes,
        page,
        &block[..to],
        w.ended,
        q,
        &mut last,
    );
    turned(followed, last, w)
}

// Takes turns until the file is done.
// Each run has a loop of its own: one for all would take what is lent through a closure, and of the memory nothing would be known after it.
fn take_turns<R: Read>(
    counts: &mut [u64; COUNTS],
    money: &mut [i64; MONEY],
    labels: &mut [u64],
    amounts: &mut [i64],
    notes: &mut [u8],
    page: &mut [u8],
    block: &mut [u8],
    input: &mut R,
    q: Question,
) -> Result<Found, Damaged>
    requires followable { Followable q.account counts.old money.old labels.old amounts.old 0 }
    requires in_bounds { (4140 ≤ length block.old) × (length block.old ≤ 65536) }
    ensures { Sound counts.new money.new }
{
    let mut w = first_window();
    let mut s = first_state();
    for _ in 0..TURNS {
        let turn = take_turn(
            counts, money, labels, amounts, notes, page, block, input, q, w, s,
        );
        match turn {
            ControlFlow::Break(Ok(last)) => return Ok(last.found),
            ControlFlow::Break(Err(damaged)) => return Err(damaged),
            ControlFlow::Continue((next, more)) => {
                w = next;
                s = more;
            }
        }
    }
    Ok(s.found)
}

// Puts what was found, unless it stands on the page already, and answers how long the page is.
fn put_found(page: &mut [u8], q: Question, found: Found) -> usize {
    match found {
        Found::Page(length) => length,
        Found::NoClose => put_no_close(page, q),
        Found::NoAccount(day) => put_no_account(page, q, day),
        Found::NoContract(day) => put_no_contract(page, q, day),
    }
}

// Puts the answer.
fn put_outcome(page: &mut [u8], q: Question, outcome: Result<Found, Damaged>) -> usize {
    match outcome {
        Ok(found) => put_found(page, q, found),
        Err(damaged) => put_damaged(page, damaged.place),
    }
}

// Writes the first bytes of a page.
fn write_page<W: Write>(page: &[u8], length: usize, output: &mut W) -> bool {
    if page.len() < length {
        return false;
    }
    output.write_all(&page[..length]).is_ok()
}

// Lends arrays as the table, the notes, the page and the block. Their lengths are known by their types, and are not counted out.
fn explain_within<R: Read, W: Write>(
    counts: &mut [u64; COUNTS],
    money: &mut [i64; MONEY],
    labels: &mut [u64; ROW_COUNTS],
    amounts: &mut [i64; ROW_MONEY],
    notes: &mut [u8; NOTES],
    page: &mut [u8; PAGE],
    block: &mut [u8; BLOCK],
    q: Question,
    input: &mut R,
    output: &mut W,
) -> bool
    requires { Holds counts.old money.old (rows_of new) }
    ensures { Sound counts.new money.new }
{
    let outcome = take_turns(counts, money, labels, amounts, notes, page, block, input, q);
    let length = put_outcome(page, q, outcome);
    write_page(page, length, output)
}

// Follows the file that `input` reads, on a new book, and writes the explanation that is asked for, or why there is none. It answers whether
// all of it was written. The memory lent is then that of the book after the file's records, as far as they were read.
pub fn explain<R: Read, W: Write>(
    counts: &mut [u64; COUNTS],
    money: &mut [i64; MONEY],
    q: Question,
    input: &mut R,
    output: &mut W,
) -> bool
    ensures { Sound counts.new money.new }
{
    new_book(counts, money);
    let mut labels = [0u64; ROW_COUNTS];
    let mut amounts = [0i64; ROW_MONEY];
    let mut notes = [0u8; NOTES];
    let mut page = [0u8; PAGE];
    let mut block = [0u8; BLOCK];
    explain_within(
        counts,
        money,
        &mut labels,
        &mut amounts,
        &mut notes,
        &mut page,
        &mut block,
        q,
        input,
        output,
    )
}
