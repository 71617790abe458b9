// A file printed: it is taken in blocks, and its text is gathered and written whenever the room for it is nearly full. No contract can say
// what is read and written. What a turn puts into the room, whatever it read, is `take_turn`'s to promise; `Runs` puts turns together.
ghost use Rattle.std.specs.Prelude.{◌+◌, ◌-◌, ◌≤◌, ◌<◌, ◌≡◌, true, length, drop};
ghost use Rattle.standing.specs.Made.{Sound};
ghost use Rattle.window.specs.Window.{Within};
ghost use Rattle.printing.specs.Turns.{GoesOn, Nearer, Reaches, Printable};
ghost use Rattle.printing.specs.Blocks.{Enough, Follows, PrintedUpTo, TurnedTo, TurnTaken};

use crate::one_record::{Printed, print_record};
use book::new_book;
use memory::{COUNTS, MONEY};
use std::io::{Read, Write};
use std::ops::ControlFlow;
use window::{BLOCK, LONGEST, TURNS, Window, first_window, is_whole, left_of, refill};

// Text up to here leaves room for the longest answer.
const NEARLY_FULL: usize = 57136;

// How far a block is printed, and where its text ends.
#[derive(Clone, Copy)]
struct Progress {
    at: usize,
    place: u64,
    used: usize,
}

// No record stands where the next one was to begin: that is put, and the file is printed no further.
#[derive(Clone, Copy)]
struct BadRecord;

// What a turn leaves: a window to go on with, or whether all was written.
type Turn = ControlFlow<bool, Window>;

// Whether another record can be printed: its text has room, and it is whole, since enough bytes follow or the file has no more.
fn is_next(p: Progress, end: usize, ended: bool) -> bool
    requires { p.at ≤ end }
    ensures { result ≡ true → Printable end ended p }
{
    p.used <= NEARLY_FULL && is_whole(end - p.at, ended, LONGEST)
}

// Prints the next record.
fn print_next(
    counts: &mut [u64; COUNTS],
    money: &mut [i64; MONEY],
    bytes: &[u8],
    room: &mut [u8],
    p: &mut Progress,
) -> Result<(), BadRecord>
    requires sound { Sound counts.old money.old }
    requires at_in_bounds { (p.old.at < length bytes.now) × (p.old.used + 8400 ≤ length room.old) }
    requires at_bound { p.old.place + (length bytes.now - p.old.at) ≤ 18446744073709551615 }
    ensures sound_2 { Sound counts.new money.new }
    ensures nearer { Nearer (length bytes.now) p.old p.new result }
    ensures printed_up_to { PrintedUpTo (Enough (drop p.old.at bytes.now)) bytes.now p.old counts.old money.old room.old p.new result counts.new money.new room.new }
{
    let printed = print_record(counts, money, bytes, p.at, p.place, room, p.used);
    match printed {
        Printed::Bad(after) => {
            p.used = after;
            Err(BadRecord)
        }
        Printed::Next(next, after) => {
            let place = p.place + (next - p.at) as u64;
            *p = Progress {
                at: next,
                place,
                used: after,
            };
            Ok(())
        }
    }
}

// Prints record after record, until one is bad, the room is nearly full or a record might be cut.
fn print_block(
    counts: &mut [u64; COUNTS],
    money: &mut [i64; MONEY],
    bytes: &[u8],
    room: &mut [u8],
    p: &mut Progress,
    ended: bool,
) -> Result<(), BadRecord>
    requires sound { Sound counts.old money.old }
    requires reaches { Reaches (length bytes.now) p.old p.old × (65536 ≤ length room.old) }
    requires at_bound { p.old.place + (length bytes.now - p.old.at) ≤ 18446744073709551615 }
    ensures sound_2 { Sound counts.new money.new }
    ensures reaches_2 { Reaches (length bytes.now) p.old p.new }
    ensures printed_up_to { PrintedUpTo (Follows ended) bytes.now p.old counts.old money.old room.old p.new result counts.new money.new room.new }
{
    // No index: each record says where the next one begins.
    while is_next(*p, bytes.len(), ended) {
        print_next(&mut *counts, &mut *money, bytes, &mut *room, &mut *p)?;
    }
    Ok(())
}

// Whether a file is done: it ended at a bad record, or all of it is printed.
fn turned(printed: Result<(), BadRecord>, p: Progress, w: Window) -> Turn
    requires { (w.from ≤ p.at) × (p.place + w.from ≡ w.place + p.at) }
    ensures { TurnedTo p printed w result }
{
    let Ok(()) = printed else {
        return ControlFlow::Break(true);
    };
    match left_of(w, p.at) {
        None => ControlFlow::Break(true),
        Some(rest) => ControlFlow::Continue(rest),
    }
}

// A turn: reads on where it must, prints what it can, and writes that.
fn take_turn<R: Read, W: Write>(
    counts: &mut [u64; COUNTS],
    money: &mut [i64; MONEY],
    input: &mut R,
    output: &mut W,
    block: &mut [u8],
    room: &mut [u8],
    before: Window,
) -> Turn
    requires sound { Sound counts.old money.old }
    requires within { Within (length block.old) before × ((4140 ≤ length block.old) × ((length block.old ≤ 65536) × (65536 ≤ length room.old))) }
    requires place_bound { before.place + 65536 ≤ 18446744073709551615 }
    ensures sound_2 { Sound counts.new money.new }
    ensures goes_on { GoesOn (length block.old) before.place result }
    ensures turn_taken { TurnTaken counts.old money.old before block.old result counts.new money.new block.new room.new }
{
    let w = refill(input, &mut *block, before, LONGEST);
    let to = w.to;
    let mut p = Progress {
        at: w.from,
        place: w.place,
        used: 0,
    };
    let printed = print_block(counts, money, &block[..to], &mut *room, &mut p, w.ended);
    if output.write_all(&room[..p.used]).is_err() {
        return ControlFlow::Break(false);
    }
    turned(printed, p, w)
}

// Takes turns until the file is done or a write fails, and answers whether all was written.
// Each run has a loop of its own: one for all would take what is lent through a closure, and of the memory nothing would be known after it.
fn take_turns<R: Read, W: Write>(
    counts: &mut [u64; COUNTS],
    money: &mut [i64; MONEY],
    input: &mut R,
    output: &mut W,
    block: &mut [u8],
    room: &mut [u8],
) -> bool
    requires { Sound counts.old money.old × ((4140 ≤ length block.old) × ((length block.old ≤ 65536) × (65536 ≤ length room.old))) }
    ensures { Sound counts.new money.new }
{
    let mut w = first_window();
    for _ in 0..TURNS {
        let turn = take_turn(counts, money, input, output, &mut *block, &mut *room, w);
        match turn {
            ControlFlow::Break(written) => return written,
            ControlFlow::Continue(next) => w = next,
        }
    }
    false
}

// Lends arrays as the block and the room. Their lengths are known by their types, and are not counted out.
fn run_within<R: Read, W: Write>(
    counts: &mut [u64; COUNTS],
    money: &mut [i64; MONEY],
    input: &mut R,
    output: &mut W,
    block: &mut [u8; BLOCK],
    room: &mut [u8; BLOCK],
) -> bool
    requires { Sound counts.old money.old }
    ensures { Sound counts.new money.new }
{
    take_turns(counts, money, input, output, block, room)
}

// Prints the day of the file that `input` reads, on a new book, and answers whether all of it was written. The memory lent is then that of the
// book after the file's records, as far as they were read.
pub fn run_day<R: Read, W: Write>(
    counts: &mut [u64; COUNTS],
    money: &mut [i64; MONEY],
    input: &mut R,
    output: &mut W,
) -> bool
    ensures { Sound counts.new money.new }
{
    new_book(&mut *counts, &mut *money);
    let mut block = [0u8; BLOCK];
    let mut room = [0u8; BLOCK];
    run_within(counts, money, input, output, &mut block, &mut room)
}
