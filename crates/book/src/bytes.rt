// Bytes on a book: a record at a place, and a whole file.
ghost use Rattle.std.specs.Prelude.{◌≤◌};
ghost use Rattle.decoding.specs.Place.{stored_from};
ghost use Rattle.records.specs.Records.{entry};
ghost use Rattle.standing.specs.Made.{Sound};
ghost use Rattle.book.specs.Announced.{CalledFrom};
ghost use Rattle.book.specs.Called.{Called};
ghost use Rattle.book.specs.Feeding.{FedAt, Ran};

use crate::calls::{Answer, call, new_book};
use decoding::read_numbers;
use fields::announced;
use memory::{COUNTS, MONEY};
use records::{Malformed, Record, read_record};

// A record that was called: the place after it, and what the call answered.
#[derive(Clone, Copy)]
pub struct Fed {
    pub next: usize,
    pub answer: Answer,
}

// A record whose own fields were read, on a book. Its exceptions are read into the list lent.
fn call_read(
    counts: &mut [u64; COUNTS],
    money: &mut [i64; MONEY],
    bytes: &[u8],
    read: Record,
    list: &mut [u64],
) -> Answer
    requires { Sound counts.old money.old }
    ensures { Called counts.old money.old (entry read.kind read.fields (stored_from bytes.now read.more list.old).room) result counts.new money.new }
{
    let _end = read_numbers(bytes, read.more, &mut *list);
    call(counts, money, read.kind, read.fields, list)
}

// The same with room for as many exceptions as the record announces. Only a start has any: for the others no room is cleared.
fn call_announced(
    counts: &mut [u64; COUNTS],
    money: &mut [i64; MONEY],
    bytes: &[u8],
    read: Record,
    count: usize,
) -> Answer
    requires { Sound counts.old money.old × (count ≤ 400) }
    ensures { CalledFrom bytes.now read.more count read.kind read.fields counts.old money.old result counts.new money.new }
{
    if count == 0 {
        let mut none = [0u64; 1];
        return call_read(counts, money, bytes, read, &mut none[..count]);
    }
    let mut list = [0u64; 400];
    call_read(counts, money, bytes, read, &mut list[..count])
}

// The record at a place of some bytes, on a book.
pub fn feed(
    counts: &mut [u64; COUNTS],
    money: &mut [i64; MONEY],
    bytes: &[u8],
    at: usize,
) -> Result<Fed, Malformed>
    requires { Sound counts.old money.old }
    ensures { FedAt bytes.now at counts.old money.old result counts.new money.new }
{
    let read = read_record(bytes, at)?;
    let count = announced(read.kind, read.fields) as usize;
    let answer = call_announced(counts, money, bytes, read, count);
    Ok(Fed {
        next: read.next,
        answer,
    })
}

// A file on a new book, to its end or to its first bad record. The answer is the place where it stopped.
pub fn run(counts: &mut [u64; COUNTS], money: &mut [i64; MONEY], bytes: &[u8]) -> usize
    ensures { Ran bytes.now result counts.new money.new }
{
    new_book(counts, money);
    // No index: where the next record begins is known once this one was read. At the end no record is read.
    let mut place = 0;
    while let Ok(fed) = feed(counts, money, bytes, place) {
        place = fed.next;
    }
    place
}
