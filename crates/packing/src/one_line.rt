// A line of text as a record of an event file.
ghost use Rattle.std.specs.Prelude.{◌≡◌, true, ◌+◌, ◌≤◌, length};
ghost use Rattle.fields.specs.Fields.{shaped};
ghost use Rattle.records.specs.Records.{writing};
ghost use Rattle.records.specs.Writing.{entry_of};
ghost use Rattle.decimal.specs.Put.{Put};
ghost use Rattle.packing.specs.Packs.{AtMost, RecordOf};

use crate::complaints::{say_expected, say_too_long};
use crate::squeezed::squeeze;
use fields::{WIDTH, announced};
use parsing::{Reading, read_line};
use records::write_record;
use std::io::Write;

// No record's line is longer.
const SQUEEZED: usize = 8914;

// Puts the bytes of a record at a place, and answers the place after them.
fn put_bytes(
    room: &mut [u8],
    used: usize,
    kind: u64,
    fields: [u64; WIDTH],
    exceptions: &[u64],
) -> usize
    requires { (shaped kind fields (length exceptions.now) ≡ true) × (used + 4140 ≤ length room.old) }
    ensures { Put room.old used (writing (entry_of kind fields exceptions.now)) result room.new }
{
    match write_record(&mut room[used..], kind, fields, exceptions) {
        Ok(size) => used + size,
        Err(_) => used,
    }
}

// Puts the bytes of a squeezed line's record. The list is lent for its exceptions.
fn pack_record<E: Write>(
    errors: &mut E,
    line: &[u8],
    number: u64,
    list: &mut [u64],
    room: &mut [u8],
    used: usize,
) -> Option<usize>
    requires { (length list.old ≡ 400) × (used + 4140 ≤ length room.old) }
    ensures record_of { RecordOf line.now room.old used result room.new }
    ensures at_most { AtMost used result }
{
    let reading = read_line(line, &mut *list);
    let Reading { kind, fields } = match reading {
        Ok(read) => read,
        Err(error) => {
            say_expected(errors, number, error);
            return None;
        }
    };
    let count = announced(kind, fields) as usize;
    let after = put_bytes(room, used, kind, fields, &list[..count]);
    Some(after)
}

// Packs a line as a person writes it. One that is empty, but for spaces and a remark, is passed over.
fn pack_written<E: Write>(
    errors: &mut E,
    text: &[u8],
    number: u64,
    line: &mut [u8],
    list: &mut [u64],
    room: &mut [u8],
    used: usize,
) -> Option<usize>
    requires { (length list.old ≡ 400) × (used + 4140 ≤ length room.old) }
    ensures { AtMost used result }
{
    let squeezed = squeeze(text, &mut *line);
    let Some(size) = squeezed else {
        say_too_long(errors, number);
        return None;
    };
    if size == 0 {
        return Some(used);
    }
    pack_record(errors, &line[..size], number, list, room, used)
}

// Lends arrays as the squeezed line and the list. Their lengths are known by their types, and are not counted out.
fn pack_within<E: Write>(
    errors: &mut E,
    text: &[u8],
    number: u64,
    line: &mut [u8; SQUEEZED],
    list: &mut [u64; 400],
    room: &mut [u8],
    used: usize,
) -> Option<usize>
    requires { used + 4140 ≤ length room.old }
    ensures { AtMost used result }
{
    pack_written(errors, text, number, line, list, room, used)
}

// Packs a line.
pub(crate) fn pack_line<E: Write>(
    errors: &mut E,
    text: &[u8],
    number: u64,
    room: &mut [u8],
    used: usize,
) -> Option<usize>
    requires { used + 4140 ≤ length room.old }
    ensures { AtMost used result }
{
    let mut line = [0u8; SQUEEZED];
    let mut list = [0u64; 400];
    pack_within(errors, text, number, &mut line, &mut list, room, used)
}
