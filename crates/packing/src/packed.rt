// Text as an event file: a record for each line that is not empty.
ghost use Rattle.std.specs.Prelude.{◌+◌, ◌-◌, ◌≤◌, ◌<◌, ◌≡◌, true, length, IfErr, MatchResult};
ghost use Rattle.window.specs.Window.{Within};
ghost use Rattle.packing.specs.declared.packed.PackError.TheVariants.{BadLine};
ghost use Rattle.packing.specs.PackTurns.{Counted, Nearer, Reaches, GoesOn, Ready};

use crate::complaints::say_too_long;
use crate::one_line::pack_line;
use scan::line_end;
use std::io::{Read, Write};
use std::ops::ControlFlow;
use window::{BLOCK, LONGEST, TURNS, Window, first_window, is_whole, left_of, refill};

// A line with its remark may be so long.
const LONGEST_LINE: usize = 32768;

// Why not all of a text is written: a line is no record, or a write failed.
#[derive(Clone, Copy, PartialEq, Eq, Debug)]
pub enum PackError {
    BadLine(u64),
    NotWritten,
}

// How far a block is packed, and where its bytes end; the number of the next line.
#[derive(Clone, Copy)]
struct Progress {
    at: usize,
    used: usize,
    number: u64,
}

// What a turn leaves: a window and a line number to go on with, or what became of the text.
type Turn = ControlFlow<Result<(), PackError>, (Window, u64)>;

// Whether another line can be packed: its record has room, and it is whole, since enough bytes follow or the text has no more.
fn is_next(p: Progress, end: usize, ended: bool) -> bool
    requires { p.at ≤ end }
    ensures { result ≡ true → Ready end p }
{
    p.used <= BLOCK - LONGEST && is_whole(end - p.at, ended, LONGEST_LINE)
}

// Whether a line may go on behind the bytes in hand.
fn is_cut(end: usize, all: usize, ended: bool) -> bool {
    !ended && end == all
}

// Packs the next line.
fn pack_next<E: Write>(
    errors: &mut E,
    bytes: &[u8],
    room: &mut [u8],
    p: Progress,
    ended: bool,
) -> Result<Progress, PackError>
    requires { (p.at < length bytes.now) × (p.used + 4140 ≤ length room.old) }
    ensures { MatchResult result (Nearer (length bytes.now) p) (λ error. error ≡ BadLine p.number) }
{
    let bad = PackError::BadLine(p.number);
    let end = line_end(bytes, p.at);
    if is_cut(end, bytes.len(), ended) {
        say_too_long(errors, p.number);
        return Err(bad);
    }
    let used = pack_line(errors, &bytes[p.at..end], p.number, room, p.used).ok_or(bad)?;
    // The next line begins after the line feed, if there is one. The last line number is that of all lines after it.
    Ok(Progress {
        at: (end + 1).min(bytes.len()),
        used,
        number: p.number.saturating_add(1),
    })
}

// Packs line after line, until one is no record, the room is nearly full or a line might be cut.
fn pack_block<E: Write>(
    errors: &mut E,
    bytes: &[u8],
    room: &mut [u8],
    p: &mut Progress,
    ended: bool,
) -> Result<(), PackError>
    requires { Reaches (length bytes.now) p.old.at p.old × (65536 ≤ length room.old) }
    ensures { Reaches (length bytes.now) p.old.at p.new × IfErr result Counted }
{
    // No index: how far a line reaches is known once it is read.
    while is_next(*p, bytes.len(), ended) {
        *p = pack_next(errors, bytes, &mut *room, *p, ended)?;
    }
    Ok(())
}

// Whether the text is done: a line is no record, or all of it is packed.
fn turned(packed: Result<(), PackError>, p: Progress, w: Window) -> Turn
    requires counted { IfErr packed Counted }
    requires from_le_at { (w.from ≤ p.at) × ((p.at ≤ w.to) × (1 ≤ p.number)) }
    requires place_bound { w.place + 65536 ≤ 18446744073709551615 }
    requires to_bound { w.to ≤ 65536 }
    ensures { GoesOn w.to w.place result }
{
    if packed.is_err() {
        return ControlFlow::Break(packed);
    }
    match left_of(w, p.at) {
        None => ControlFlow::Break(Ok(())),
        Some(rest) => ControlFlow::Continue((rest, p.number)),
    }
}

// A turn: reads on where it must, packs what it can, and writes that.
fn take_turn<R: Read, W: Write, E: Write>(
    input: &mut R,
    output: &mut W,
    errors: &mut E,
    block: &mut [u8],
    room: &mut [u8],
    before: Window,
    number: u64,
) -> Turn
    requires within { Within (length block.old) before × ((length block.old ≤ 65536) × (32768 ≤ length block.old)) }
    requires in_bounds { (65536 ≤ length room.old) × ((before.place + 65536 ≤ 18446744073709551615) × (1 ≤ number)) }
    ensures { GoesOn (length block.old) before.place result }
{
    let w = refill(input, &mut *block, before, LONGEST_LINE);
    let to = w.to;
    let mut p = Progress {
        at: w.from,
        used: 0,
        number,
    };
    let packed = pack_block(errors, &block[..to], &mut *room, &mut p, w.ended);
    if output.write_all(&room[..p.used]).is_err() {
        return ControlFlow::Break(Err(PackError::NotWritten));
    }
    turned(packed, p, w)
}

// Takes turns until the text is done.
// Each run has a loop of its own: one for all would take what is lent through a closure with these clauses again, and is no shorter.
fn take_turns<R: Read, W: Write, E: Write>(
    input: &mut R,
    output: &mut W,
    errors: &mut E,
    block: &mut [u8],
    room: &mut [u8],
) -> Result<(), PackError>
    requires { (length block.old ≤ 65536) × ((32768 ≤ length block.old) × (65536 ≤ length room.old)) }
    ensures { IfErr result Counted }
{
    let mut w = first_window();
    let mut number: u64 = 1;
    for _ in 0..TURNS {
        let turn = take_turn(input, output, errors, &mut *block, &mut *room, w, number);
        match turn {
            ControlFlow::Break(packed) => return packed,
            ControlFlow::Continue((next, line)) => {
                w = next;
                number = line;
            }
        }
    }
    Err(PackError::NotWritten)
}

// Lends arrays as the block and the room. Their lengths are known by their types, and are not counted out.
fn pack_within<R: Read, W: Write, E: Write>(
    input: &mut R,
    output: &mut W,
    errors: &mut E,
    block: &mut [u8; BLOCK],
    room: &mut [u8; BLOCK],
) -> Result<(), PackError>
    ensures { IfErr result Counted }
{
    take_turns(input, output, errors, block, room)
}

// Writes the records of a text, up to its end or to a line that is no record: what was expected there is said among the errors.
pub fn pack<R: Read, W: Write, E: Write>(
    input: &mut R,
    output: &mut W,
    errors: &mut E,
) -> Result<(), PackError>
    ensures { IfErr result Counted }
{
    let mut block = [0u8; BLOCK];
    let mut room = [0u8; BLOCK];
    pack_within(input, output, errors, &mut block, &mut room)
}
