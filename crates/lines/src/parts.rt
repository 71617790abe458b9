// The parts of a line: a field after a space, and the line's end.
ghost use Rattle.std.specs.Prelude.{[], ◌∷◌, ◌+◌, ◌≤◌, length};
ghost use Rattle.decimal.specs.Decimal.{numeral, signed_numeral};
ghost use Rattle.decimal.specs.Put.{Put};

use decimal::{put_number, put_signed, put_word};

// Puts a space and a number.
pub(crate) fn put_field(room: &mut [u8], at: usize, number: u64) -> usize
    requires { at + 21 ≤ length room.old }
    ensures { Put room.old at (32 ∷ numeral number) result room.new }
{
    let next = put_word(room, at, b" ");
    put_number(room, next, number)
}

// Puts a space and a signed number.
pub(crate) fn put_signed_field(room: &mut [u8], at: usize, number: i64) -> usize
    requires { at + 22 ≤ length room.old }
    ensures { Put room.old at (32 ∷ signed_numeral number) result room.new }
{
    let next = put_word(room, at, b" ");
    put_signed(room, next, number)
}

// Ends a line.
pub(crate) fn put_end(room: &mut [u8], at: usize) -> usize
    requires { at + 1 ≤ length room.old }
    ensures { Put room.old at (10 ∷ []) result room.new }
{
    put_word(room, at, b"\n")
}
