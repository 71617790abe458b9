// Files: the records of an event file, read one after the other, each printed and written back. Where two answers of the
// crates do not agree, the word `differs` stands.
ghost use Rattle.std.specs.Prelude.{◌≤◌, length};

use crate::alike::reads_alike;
use crate::lines::{FILE, Stop, read_hex};
use crate::rooms::Record;
use arrayvec::ArrayVec;
use fields::WIDTH;
use ranges::OutOfRange;
use records::Malformed;
use std::io::{self, Write};

// Puts the number of a record's kind, with which its line begins.
fn put_kind<W: Write>(output: &mut W, kind: u64) -> io::Result<()> {
    let mut text = [0u8; 20];
    let end = decimal::put_number(&mut text, 0, kind);
    output.write_all(&text[..end])
}

// Puts a space and a number. The two are gathered first: a number costs one write, and no formatter.
fn put_number<W: Write>(output: &mut W, number: u64) -> io::Result<()> {
    let mut text = [b' '; 21];
    let end = decimal::put_number(&mut text, 1, number);
    output.write_all(&text[..end])
}

// Puts a space and a signed number.
fn put_signed<W: Write>(output: &mut W, number: i64) -> io::Result<()> {
    let mut text = [b' '; 22];
    let end = decimal::put_signed(&mut text, 1, number);
    output.write_all(&text[..end])
}

// Puts a space and a field of a kind, in the form that the field has.
fn put_field<W: Write>(output: &mut W, kind: u64, field: usize, value: u64) -> io::Result<()> {
    if fields::is_signed(kind, field) {
        put_signed(output, folding::unfold(value))
    } else {
        put_number(output, value)
    }
}

// Puts the fields of a kind, each after a space.
fn put_fields<W: Write>(output: &mut W, kind: u64, values: [u64; WIDTH]) -> io::Result<()> {
    let Some(count) = fields::count_of(kind) else {
        return Ok(());
    };
    for (i, value) in values.iter().take(count).enumerate() {
        put_field(output, kind, i, *value)?;
    }
    Ok(())
}

// Puts numbers, each after a space.
fn put_list<W: Write>(output: &mut W, numbers: &[u64]) -> io::Result<()> {
    for number in numbers {
        put_number(output, *number)?;
    }
    Ok(())
}

// Puts `ok`, or the number of the refusal.
fn put_checked<W: Write>(output: &mut W, checked: Result<(), OutOfRange>) -> io::Result<()> {
    match checked {
        Ok(()) => output.write_all(b" ok"),
        Err(refused) => put_number(output, refused.number()),
    }
}

// Puts the line of a record that was read from just these bytes. It ends with the record's length if it is written back as it was read, and needs
// all of that room.
fn put_record<W: Write>(output: &mut W, record: Record<'_>, bytes: &[u8]) -> io::Result<()> {
    let kind = record.kind;
    put_kind(output, kind)?;
    put_fields(output, kind, record.fields)?;
    put_list(output, record.exceptions)?;
    put_checked(
        output,
        ranges::in_range(kind, record.fields, record.exceptions),
    )?;
    if record.writes_back(bytes) {
        put_number(output, bytes.len() as u64)?;
        output.write_all(b"\n")
    } else {
        output.write_all(b" differs\n")
    }
}

// Puts the line of a start, whose exceptions just fill the list lent and end where the record does.
fn put_exceptions<W: Write>(
    output: &mut W,
    bytes: &[u8],
    from: usize,
    read: records::Record,
    list: &mut [u64],
) -> io::Result<()>
    requires { (from ≤ read.next) × (read.next ≤ length bytes.now) }
{
    match decoding::read_numbers(bytes, read.more, &mut *list) {
        Some(last) if last == read.next => {
            let fields = read.fields;
            let record = Record {
                kind: read.kind,
                fields,
                exceptions: list,
            };
            put_record(output, record, &bytes[from..read.next])
        }
        _ => writeln!(output, "differs"),
    }
}

// Puts the line of a start, which announces at most 400 exceptions.
fn put_start<W: Write>(
    output: &mut W,
    bytes: &[u8],
    from: usize,
    read: records::Record,
) -> io::Result<()>
    requires { (from ≤ read.next) × (read.next ≤ length bytes.now) }
{
    let mut list = [0u64; 400];
    match list.get_mut(..read.fields[2] as usize) {
        Some(announced) => put_exceptions(output, bytes, from, read, announced),
        None => writeln!(output, "differs"),
    }
}

// Puts the line of the record that was read from a place of the file.
fn put_reading<W: Write>(
    output: &mut W,
    bytes: &[u8],
    from: usize,
    read: records::Record,
) -> io::Result<()>
    requires { (from ≤ read.next) × (read.next ≤ length bytes.now) }
{
    if read.kind == 0 {
        return put_start(output, bytes, from, read);
    }
    let fields = read.fields;
    let record = Record {
        kind: read.kind,
        fields,
        exceptions: &[],
    };
    put_record(output, record, &bytes[from..read.next])
}

// Puts the lines of a file's records, up to its end or the first that is refused.
fn put_records<W: Write>(output: &mut W, bytes: &[u8]) -> io::Result<()> {
    // No iterator counts this walk: each record says where the next one begins.
    let mut place: usize = 0;
    while place < bytes.len() {
        let reading = records::read_record(bytes, place);
        if !reads_alike(bytes, place, reading) {
            return writeln!(output, "differs");
        }
        match reading {
            Err(Malformed { at }) => return writeln!(output, "bad {at}"),
            Ok(read) if place < read.next && read.next <= bytes.len() => {
                put_reading(output, bytes, place, read)?;
                place = read.next;
            }
            Ok(_) => return writeln!(output, "differs"),
        }
    }
    writeln!(output, "end")
}

// Puts the answer to a line of hex digits, an event file of at most 8,192 bytes.
pub(crate) fn put_file<W: Write>(output: &mut W, line: &[u8]) -> Result<(), Stop> {
    if 2 * FILE < line.len() {
        return Err(Stop::NoTest);
    }
    let mut bytes = ArrayVec::new();
    read_hex(line, &mut bytes)?;
    put_records(output, bytes.as_slice())?;
    Ok(())
}
