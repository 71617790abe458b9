// Lines: the bytes that hex digits stand for, and the numbers of a line.
ghost use Rattle.std.specs.Prelude.{◌<◌, IfOk};

use arrayvec::ArrayVec;
use scan::{digits_end, number_in};
use std::io;

// A line has no more numbers: a room, a kind, thirteen fields and 450 exceptions.
const MOST: usize = 465;

// An event file of a line has no more bytes.
pub(crate) const FILE: usize = 8192;

// Why a line is not answered: it is no test, or the system does not write.
#[derive(Drop)]
pub(crate) enum Stop {
    NoTest,
    System(io::Error),
}

impl From<io::Error> for Stop {
    fn from(error: io::Error) -> Stop {
        Stop::System(error)
    }
}

// The value of a hex digit.
fn hex_value(byte: u8) -> Result<u32, Stop>
    ensures { IfOk result (λ value. value < 16) }
{
    char::from(byte).to_digit(16).ok_or(Stop::NoTest)
}

// The byte that two hex digits stand for.
fn hex_byte(digits: &[u8]) -> Result<u8, Stop> {
    let [high, low] = digits else {
        return Err(Stop::NoTest);
    };
    let value = 16 * hex_value(*high)? + hex_value(*low)?;
    Ok(value as u8)
}

// The bytes that hex digits stand for, two to a byte, put behind those of the room lent.
pub(crate) fn read_hex(digits: &[u8], bytes: &mut ArrayVec<u8, FILE>) -> Result<(), Stop> {
    for pair in digits.chunks(2) {
        let byte = hex_byte(pair)?;
        if bytes.is_full() {
            return Err(Stop::NoTest);
        }
        bytes.push(byte);
    }
    Ok(())
}

// The numbers of a text, each after one space.
pub(crate) fn read_numbers(text: &[u8]) -> Result<ArrayVec<u64, MOST>, Stop> {
    let mut numbers = ArrayVec::new();
    // No index: where a number ends is known once it was read.
    let mut at = 0;
    while at < text.len() {
        let first = at + 1;
        let end = digits_end(text, first);
        if text[at] != b' ' || end == first || numbers.is_full() {
            return Err(Stop::NoTest);
        }
        let Some(number) = number_in(&text[first..end]) else {
            return Err(Stop::NoTest);
        };
        numbers.push(number);
        at = end;
    }
    Ok(numbers)
}
