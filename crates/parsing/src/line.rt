// A line's record: its kind, its fields, its exceptions, and nothing after them.
ghost use Rattle.std.specs.Prelude.{◌≡◌, ◌≤◌, ◌<◌, MatchResult, length, take};
ghost use Rattle.fields.specs.Fields.{count};
ghost use Rattle.wording.specs.Text.{field_text, exception_text};
ghost use Rattle.parsing.specs.Parsing.{Says};
ghost use Rattle.parsing.specs.Places.{Lacks, Row, Walked, Tail};

use crate::parts::{exception_at, field_at, kind_in};
use fields::{EXCEPTIONS, WIDTH, announced, count_of};
use scan::byte_end;

// The record of a line: its kind, and its fields with zeros after them. The exceptions stand in the list that was lent.
#[derive(Clone, Copy, PartialEq, Eq, Debug)]
pub struct Reading {
    pub kind: u64,
    pub fields: [u64; WIDTH],
}

// Why a line is no record's.
#[derive(Clone, Copy, PartialEq, Eq, Debug)]
pub enum LineError {
    // The line begins with no record's word.
    NoKind,
    // The first of the kind's fields that is not there as it must be.
    NoField {
        kind: u64,
        field: usize,
    },
    // How many exceptions are announced, and how many were read before one that is missing or no number; 0 where more
    // than 400 are announced.
    NoException {
        kind: u64,
        announced: u64,
        read: usize,
    },
    // The record is there, and more text after it.
    TooLong {
        kind: u64,
    },
}

// Some fields, with zeros after them, and the place after them.
#[derive(Clone, Copy)]
struct Fields {
    pub values: [u64; WIDTH],
    pub end: usize,
}

// The n fields of a kind from a place on, or which of them is missing.
fn fields_in(line: &[u8], at: usize, kind: u64, n: usize) -> Result<Fields, usize>
    requires { (at ≤ length line.now) × (kind < 13) × (n ≡ count kind) × (n ≤ 13) }
    ensures { MatchResult result (λ read. Row (field_text kind) n line.now at read) (λ i. (i < n) × Lacks (field_text kind) n line.now at) }
{
    let mut values = [0; WIDTH];
    let mut place = at;
    for (i, value) in values[..n].iter_mut().enumerate() {
        let (number, next) = field_at(line, place, kind, i).ok_or(i)?;
        *value = number;
        place = next;
    }
    Ok(Fields { values, end: place })
}

// So many exceptions from a place on, put into a list.
fn exceptions_in(line: &[u8], at: usize, list: &mut [u64], n: usize) -> Result<usize, usize>
    requires { (at ≤ length line.now) × (n ≤ length list.old) }
    ensures { (Walked (λ _. exception_text) n line.now at (take n list.new) result) × (length list.new ≡ length list.old) }
{
    let mut place = at;
    for (i, slot) in list[..n].iter_mut().enumerate() {
        let (number, next) = exception_at(line, place).ok_or(i)?;
        *slot = number;
        place = next;
    }
    Ok(place)
}

// The rest of a line whose fields were read: the exceptions that they announce, and then its end.
fn after_fields(
    line: &[u8],
    at: usize,
    list: &mut [u64],
    kind: u64,
    announced: u64,
) -> Result<(), LineError>
    requires { (at ≤ length line.now) × (length list.old ≡ 400) }
    ensures { (Tail line.now at kind announced list.new result) × (length list.new ≡ 400) }
{
    let lacking = |read| LineError::NoException {
        kind,
        announced,
        read,
    };
    if EXCEPTIONS < announced {
        return Err(lacking(0));
    }
    let last = exceptions_in(line, at, list, announced as usize).map_err(lacking)?;
    if last < line.len() {
        return Err(LineError::TooLong { kind });
    }
    Ok(())
}

// The record of a line. Its exceptions stand first in the list, which has room for the most that a record may have.
pub fn read_line(line: &[u8], list: &mut [u64]) -> Result<Reading, LineError>
    requires { length list.old ≡ 400 }
    ensures { (Says line.now result list.new) × (length list.new ≡ 400) }
{
    let word = byte_end(line, 0, b' ');
    let kind = kind_in(&line[..word]).ok_or(LineError::NoKind)?;
    let n = count_of(kind).ok_or(LineError::NoKind)?;
    let read = fields_in(line, word, kind, n).map_err(|field| LineError::NoField { kind, field })?;
    // A local: an array is not moved straight from one struct's field into another.
    let fields = read.values;
    after_fields(line, read.end, list, kind, announced(kind, fields))?;
    Ok(Reading { kind, fields })
}
