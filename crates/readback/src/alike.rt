// Readings of one record in three ways: at its place of the file, at the start of the rest of the file, and by a reader of
// that rest.
ghost use Rattle.std.specs.Prelude.{◌≤◌, length};

use records::{Malformed, Record};

// What comes of reading a record.
pub(crate) type Reading = Result<Record, Malformed>;

// Whether a place of a file is that place of the part that starts `by` bytes on.
fn is_same_place(whole: usize, part: usize, by: usize) -> bool {
    whole.checked_sub(by) == Some(part)
}

// Whether two readings are of one record, but that one is of the part of a file that starts `by` bytes on.
fn same_readings(whole: Reading, part: Reading, by: usize) -> bool {
    match (whole, part) {
        (Ok(a), Ok(b)) => {
            a.kind == b.kind && a.fields == b.fields && is_same_place(a.next, b.next, by)
        }
        (Err(a), Err(b)) => is_same_place(a.at, b.at, by),
        _ => false,
    }
}

// Whether the record at a place is also what the rest of the file from there begins with, and what a reader of that rest
// reads first.
pub(crate) fn reads_alike(bytes: &[u8], place: usize, reading: Reading) -> bool
    requires { place ≤ length bytes.now }
{
    same_readings(reading, records::read_rest(bytes, place), place)
        && same_readings(reading, reader::first_record(&bytes[place..]), place)
}
