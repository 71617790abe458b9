// An event file as text: a line for each record.
ghost use Rattle.std.specs.Prelude.{◌+◌, ◌-◌, ◌≤◌, ◌<◌, ◌≡◌, true, length, IfOk};
ghost use Rattle.decoding.specs.Place.{stored_from};
ghost use Rattle.fields.specs.Fields.{shaped};
ghost use Rattle.records.specs.Records.{entry};
ghost use Rattle.decimal.specs.Put.{Put};
ghost use Rattle.window.specs.Window.{Within};
ghost use Rattle.packing.specs.Lines.{line_of, LineOf};
ghost use Rattle.packing.specs.Turns.{Nearer, Reaches, GoesOn, Ready};

use decimal::put_word;
use decoding::read_numbers;
use fields::announced;
use records::{Record, read_record};
use std::io::{Read, Write};
use std::ops::ControlFlow;
use window::{BLOCK, LONGEST, TURNS, Window, first_window, is_whole, left_of, refill};
use wording::put_record;

// No line is longer, with its line feed.
const LONGEST_LINE: usize = 8915;

// Why not all of a file is written: the bytes from a place on are no record, or a write failed.
#[derive(Clone, Copy, PartialEq, Eq, Debug)]
pub enum UnpackError {
    Damaged(u64),
    NotWritten,
}

// How far a block is unpacked, and where its text ends.
#[derive(Clone, Copy)]
struct Progress {
    at: usize,
    used: usize,
}

// No record stands where the next one was to begin.
#[derive(Clone, Copy)]
struct NoRecord;

// What a turn leaves: a window to go on with, or what became of the file.
type Turn = ControlFlow<Result<(), UnpackError>, Window>;

// Puts the line of a record whose own fields were read: its exceptions are read into the list lent.
fn put_read(bytes: &[u8], read: Record, list: &mut [u64], room: &mut [u8], used: usize) -> usize
    requires { (shaped read.kind read.fields (length list.old) ≡ true) × (used + 8915 ≤ length room.old) }
    ensures { Put room.old used (line_of (entry read.kind read.fields (stored_from bytes.now read.more list.old).room)) result room.new }
{
    let _end = read_numbers(bytes, read.more, &mut *list);
    let after = put_record(&mut *room, used, read.kind, read.fields, list);
    put_word(room, after, b"\n")
}

// Puts the line of the record at a place.
fn put_line(bytes: &[u8], at: usize, room: &mut [u8], used: usize) -> Option<(usize, usize)>
    requires { used + 8915 ≤ length room.old }
    ensures { LineOf bytes.now at room.old used result room.new }
{
    let read = read_record(bytes, at).ok()?;
    let mut list = [0u64; 400];
    let count = announced(read.kind, read.fields) as usize;
    let after = put_read(bytes, read, &mut list[..count], room, used);
    Some((read.next, after))
}

// Whether another record can be unpacked: its line has room, and it is whole, since enough bytes follow or the file has no more.
fn is_next(p: Progress, end: usize, ended: bool) -> bool
    requires { p.at ≤ end }
    ensures { result ≡ true → Ready end p }
{
    p.used <= BLOCK - LONGEST_LINE && is_whole(end - p.at, ended, LONGEST)
}

// Unpacks the next record.
fn unpack_next(bytes: &[u8], room: &mut [u8], p: Progress) -> Result<Progress, NoRecord>
    requires { (p.at < length bytes.now) × (p.used + 8915 ≤ length room.old) }
    ensures { IfOk result (Nearer (length bytes.now) p) }
{
    let (at, used) = put_line(bytes, p.at, room, p.used).ok_or(NoRecord)?;
    Ok(Progress { at, used })
}

// Unpacks record after record, until none stands there, the room is nearly full or a record might be cut.
fn unpack_block(
    bytes: &[u8],
    room: &mut [u8],
    p: &mut Progress,
    ended: bool,
) -> Result<(), NoRecord>
    requires { Reaches (length bytes.now) p.old.at p.old × (65536 ≤ length room.old) }
    ensures { Reaches (length bytes.now) p.old.at p.new }
{
    // No index: each record says where the next one begins.
    while is_next(*p, bytes.len(), ended) {
        *p = unpack_next(bytes, &mut *room, *p)?;
    }
    Ok(())
}

// Whether the file is done: no record stands there, or all of it is unpacked.
fn turned(unpacked: Result<(), NoRecord>, p: Progress, w: Window) -> Turn
    requires from_le_at { (w.from ≤ p.at) × (p.at ≤ w.to) }
    requires place_bound { w.place + 65536 ≤ 18446744073709551615 }
    requires to_bound { w.to ≤ 65536 }
    ensures { GoesOn w.to w.place result }
{
    if unpacked.is_err() {
        let place = w.place + (p.at - w.from) as u64;
        return ControlFlow::Break(Err(UnpackError::Damaged(place)));
    }
    match left_of(w, p.at) {
        None => ControlFlow::Break(Ok(())),
        Some(rest) => ControlFlow::Continue(rest),
    }
}

// A turn: reads on where it must, unpacks what it can, and writes that.
fn take_turn<R: Read, W: Write>(
    input: &mut R,
    output: &mut W,
    block: &mut [u8],
    room: &mut [u8],
    before: Window,
) -> Turn
    requires within { Within (length block.old) before × ((length block.old ≤ 65536) × (4140 ≤ length block.old)) }
    requires in_bounds { (65536 ≤ length room.old) × (before.place + 65536 ≤ 18446744073709551615) }
    ensures { GoesOn (length block.old) before.place result }
{
    let w = refill(input, &mut *block, before, LONGEST);
    let to = w.to;
    let mut p = Progress {
        at: w.from,
        used: 0,
    };
    let unpacked = unpack_block(&block[..to], &mut *room, &mut p, w.ended);
    if output.write_all(&room[..p.used]).is_err() {
        return ControlFlow::Break(Err(UnpackError::NotWritten));
    }
    turned(unpacked, p, w)
}

// Takes turns until the file is done.
// Each run has a loop of its own: one for all would take what is lent through a closure with these clauses again, and is no shorter.
fn take_turns<R: Read, W: Write>(
    input: &mut R,
    output: &mut W,
    block: &mut [u8],
    room: &mut [u8],
) -> Result<(), UnpackError>
    requires { (length block.old ≤ 65536) × ((4140 ≤ length block.old) × (65536 ≤ length room.old)) }
{
    let mut w = first_window();
    for _ in 0..TURNS {
        let turn = take_turn(input, output, &mut *block, &mut *room, w);
        match turn {
            ControlFlow::Break(unpacked) => return unpacked,
            ControlFlow::Continue(next) => w = next,
        }
    }
    Err(UnpackError::NotWritten)
}

// Lends arrays as the block and the room. Their lengths are known by their types, and are not counted out.
fn unpack_within<R: Read, W: Write>(
    input: &mut R,
    output: &mut W,
    block: &mut [u8; BLOCK],
    room: &mut [u8; BLOCK],
) -> Result<(), UnpackError> {
    take_turns(input, output, block, room)
}

// Writes the lines of the records of an event file, up to the file's end or to bytes that are no record.
pub fn unpack<R: Read, W: Write>(input: &mut R, output: &mut W) -> Result<(), UnpackError> {
    let mut block = [0u8; BLOCK];
    let mut room = [0u8; BLOCK];
    unpack_within(input, output, &mut block, &mut room)
}
