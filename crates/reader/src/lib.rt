// A reader that holds the file's bytes and its place together.
#![tactic(auto)]

ghost use Rattle.std.specs.Prelude.{◌≡◌};
ghost use Rattle.records.specs.Reading.{reading_at};
ghost use Rattle.reader.specs.Place.{moved_on, rest_from};

use records::{Malformed, Record, read_record};

// The file's bytes, and the place of the record to read next.
#[derive(Clone, Copy)]
pub struct Reader<'a> {
    pub bytes: &'a [u8],
    pub place: usize,
}

// A reader at the start of a file.
pub fn reader_of<'a>(bytes: &'a [u8]) -> Reader<'a>
    ensures { (result.bytes ≡ bytes.entry) × (result.place ≡ 0) }
{
    Reader { bytes, place: 0 }
}

// The record at the reader's place. The reader is left at the place after it, or where it was if the record is refused.
pub fn next<'s, 'a>(r: &'s mut Reader<'a>) -> Result<Record, Malformed>
    ensures { (result ≡ reading_at r.old.bytes.now r.old.place) × (r.new ≡ moved_on r.old result) }
{
    let found = read_record(r.bytes, r.place)?;
    r.place = found.next;
    Ok(found)
}

// What is left from the reader's place on, as a part of the same bytes.
pub fn rest<'a>(r: Reader<'a>) -> &'a [u8]
    ensures { result.now ≡ rest_from r.entry.bytes.now r.entry.place }
{
    r.bytes.get(r.place..).unwrap_or(&[])
}

// The first record of a file.
pub fn first_record(bytes: &[u8]) -> Result<Record, Malformed>
    ensures { result ≡ reading_at bytes.now 0 }
{
    let mut r = reader_of(bytes);
    next(&mut r)
}
