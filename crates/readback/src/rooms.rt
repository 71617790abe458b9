// Rooms: records written into lent room, each byte of which is AA at first.
ghost use Rattle.std.specs.Prelude.{◌<◌, ◌≤◌, length};

use crate::lines::{Stop, read_numbers};
use fields::WIDTH;
use records::{Unwritten, write_record};
use std::io::{self, Write};

// What a record says.
#[derive(Clone, Copy)]
pub(crate) struct Record<'a> {
    pub kind: u64,
    pub fields: [u64; WIDTH],
    pub exceptions: &'a [u64],
}

impl Record<'_> {
    // Writes the record into a room.
    fn write(self, room: &mut [u8]) -> Result<usize, Unwritten> {
        write_record(room, self.kind, self.fields, self.exceptions)
    }

    // Whether the record is written into a room of just its length, and as it was read.
    fn fills_room(self, room: &mut [u8], bytes: &[u8]) -> bool {
        match self.write(&mut *room) {
            Ok(length) => length == bytes.len() && *room == *bytes,
            Err(_) => false,
        }
    }

    // Whether the record is refused a room, which stays as it was.
    fn keeps_room(self, room: &mut [u8]) -> bool {
        match self.write(&mut *room) {
            Err(Unwritten::NoRoom) => room.iter().all(|byte| *byte == 0xAA),
            _ => false,
        }
    }

    // Whether the record is written back as it was read, and needs just that much room.
    pub(crate) fn writes_back(self, bytes: &[u8]) -> bool {
        let length = bytes.len();
        if length == 0 || 8192 < length {
            return false;
        }
        // A room that was kept is as it was at first, and serves again.
        let mut room = [0xAAu8; 8192];
        self.keeps_room(&mut room[..length - 1]) && self.fills_room(&mut room[..length], bytes)
    }
}

// Puts what writing answered.
fn put_written<W: Write>(output: &mut W, written: Result<usize, Unwritten>) -> io::Result<()> {
    match written {
        Ok(length) => write!(output, "done {length}"),
        Err(Unwritten::Malformed(place)) => write!(output, "no 1 {place}"),
        Err(Unwritten::NoRoom) => write!(output, "no 16"),
    }
}

// The hex digit of a number below 16, in upper case.
fn hex_digit(n: u8) -> u8
    requires { n < 16 }
{
    if n < 10 { b'0' + n } else { b'A' - 10 + n }
}

// Puts some bytes as hex digits, at most 32, with one write.
fn put_hex<W: Write>(output: &mut W, bytes: &[u8]) -> io::Result<()>
    requires { length bytes.now ≤ 32 }
{
    let mut digits = [0u8; 64];
    for (i, byte) in bytes.iter().enumerate() {
        digits[2 * i] = hex_digit(byte / 16);
        digits[2 * i + 1] = hex_digit(byte % 16);
    }
    output.write_all(&digits[..2 * bytes.len()])
}

// Puts a space and a whole room, or nothing for an empty one, and ends the line.
fn put_room<W: Write>(output: &mut W, room: &[u8]) -> io::Result<()> {
    if !room.is_empty() {
        output.write_all(b" ")?;
    }
    for part in room.chunks(32) {
        put_hex(output, part)?;
    }
    output.write_all(b"\n")
}

// Puts what comes of writing a record into a room, and the room afterwards.
fn put_attempt<W: Write>(output: &mut W, record: Record<'_>, room: &mut [u8]) -> io::Result<()> {
    let written = record.write(&mut *room);
    put_written(output, written)?;
    put_room(output, room)
}

// Puts the answer to what stands after the `w` of a line: how much room there is, and a record to be written, its kind,
// its fields and its exceptions.
pub(crate) fn put_writing<W: Write>(output: &mut W, rest: &[u8]) -> Result<(), Stop> {
    let numbers = read_numbers(rest)?;
    let [size, kind, more @ ..] = numbers.as_slice() else {
        return Err(Stop::NoTest);
    };
    let Some((listed, exceptions)) = more.split_first_chunk::<WIDTH>() else {
        return Err(Stop::NoTest);
    };
    if 4096 < *size {
        return Err(Stop::NoTest);
    }
    let fields = *listed;
    let record = Record {
        kind: *kind,
        fields,
        exceptions,
    };
    let mut room = [0xAAu8; 4096];
    put_attempt(output, record, &mut room[..*size as usize])?;
    Ok(())
}
