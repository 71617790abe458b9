// Records as bytes: a record at a place of a file, the record at the start of what is left, and a record put into lent
// room. A record is its kind and its fields. The exceptions of a start stay in the bytes: whoever needs them reads them
// from the place that the answer names, by `decoding::read_numbers`.
#![tactic(auto)]

ghost use Rattle.std.specs.Prelude.{◌≡◌, ◌≤◌, length, drop};
ghost use Rattle.numbers.specs.Several.{many};
ghost use Rattle.records.specs.Reading.{reading_at};
ghost use Rattle.records.specs.Steps.{filled, after_fields};
ghost use Rattle.records.specs.Writing.{Out, written_in};

use decoding::{read_number, skip_numbers};
use encoding::{number_size, numbers_size, write_number, write_numbers};
use fields::{EXCEPTIONS, WIDTH, announced, count_of, is_shaped};

// Some fields, with zeros after them, and the place after them.
#[derive(Clone, Copy)]
struct Fields {
    pub values: [u64; WIDTH],
    pub end: usize,
}

// A record that stands at a place: its kind, its fields with zeros after them, the place of its exceptions, and the place
// after it.
#[derive(Clone, Copy)]
pub struct Record {
    pub kind: u64,
    pub fields: [u64; WIDTH],
    pub more: usize,
    pub next: usize,
}

// Refusal 1 with the place of the record's first byte.
#[derive(Clone, Copy, PartialEq, Eq, Debug)]
pub struct Malformed {
    pub at: usize,
}

// Why a record is not written: refusal 1 with place 0 for one that no reader would take, or refusal 16.
#[derive(Clone, Copy, PartialEq, Eq, Debug)]
pub enum Unwritten {
    Malformed(usize),
    NoRoom,
}

// The n numbers from a place on, as fields; none if not so many stand there.
fn read_fields(bytes: &[u8], at: usize, n: usize) -> Option<Fields>
    requires { (at ≤ length bytes.now) × (n ≤ 13) }
    ensures { result ≡ filled bytes.now (many n (drop at bytes.now)) }
{
    let mut values = [0; WIDTH];
    let mut place = at;
    for value in values[..n].iter_mut() {
        let (x, next) = read_number(bytes, place)?;
        *value = x;
        place = next;
    }
    Some(Fields { values, end: place })
}

// A record whose own fields were read: its exceptions are passed. `first` is the place of the record's first byte,
// `more` that of the exceptions.
fn with_exceptions(
    bytes: &[u8],
    first: usize,
    kind: u64,
    fields: [u64; WIDTH],
    more: usize,
) -> Result<Record, Malformed>
    requires { more ≤ length bytes.now }
    ensures { result ≡ after_fields bytes.now first kind fields more }
{
    let count = announced(kind, fields);
    if EXCEPTIONS < count {
        return Err(Malformed { at: first });
    }
    let next = skip_numbers(bytes, more, count).ok_or(Malformed { at: first })?;
    Ok(Record {
        kind,
        fields,
        more,
        next,
    })
}

// The record at a place of some bytes. A place at or past the end is a record cut short.
pub fn read_record(bytes: &[u8], at: usize) -> Result<Record, Malformed>
    ensures { result ≡ reading_at bytes.now at }
{
    let bad = Malformed { at };
    let (kind, start) = read_number(bytes, at).ok_or(bad)?;
    let n = count_of(kind).ok_or(bad)?;
    let read = read_fields(bytes, start, n).ok_or(bad)?;
    with_exceptions(bytes, at, kind, read.values, read.end)
}

// The record at the start of what is left from a place on. Its places are counted from there.
pub fn read_rest(bytes: &[u8], next: usize) -> Result<Record, Malformed>
    ensures { result ≡ reading_at (drop next bytes.now) 0 }
{
    if bytes.len() < next {
        return Err(Malformed { at: 0 });
    }
    read_record(&bytes[next..], 0)
}

// A record, put at the start of lent room; the answer is its length. The room after it stays, and all of it where the
// record is refused.
pub fn write_record(
    room: &mut [u8],
    kind: u64,
    fields: [u64; WIDTH],
    exceptions: &[u64],
) -> Result<usize, Unwritten>
    ensures { ◌≡◌ {A = Out} (record { answer = result; room = room.new }) (written_in room.old kind fields exceptions.now) }
{
    if !is_shaped(kind, fields, exceptions.len()) {
        return Err(Unwritten::Malformed(0));
    }
    let n = count_of(kind).ok_or(Unwritten::Malformed(0))?;
    let size = number_size(kind) + numbers_size(&fields[..n]) + numbers_size(exceptions);
    if room.len() < size {
        return Err(Unwritten::NoRoom);
    }
    let first = write_number(room, 0, kind);
    let second = write_numbers(room, first, &fields[..n]);
    let last = write_numbers(room, second, exceptions);
    Ok(last)
}
