// Short texts by value: numbers, rates, times, dates and yuan, as an explanation shows them.
ghost use Rattle.std.specs.Prelude.{List, ℕ, ◌+◌, ◌≤◌, ◌<◌, length};
ghost use Rattle.std.specs.Fn.{FnOnceReturnsAtMut};

use decimal::{digits_of, put_number, put_signed, put_word};
use whole::size;
use wording::{put_rate, put_time};

// A text of at most 48 bytes. An array and a length, since nothing here takes memory from a heap.
#[derive(Clone, Copy)]
pub(crate) struct Piece {
    pub text: [u8; 48],
    pub length: usize,
    ghost short: { length ≤ 48 },
}

impl Piece {
    pub(crate) fn as_slice(&self) -> &[u8] {
        &self.text[..self.length]
    }

    // What a call puts at the start of fresh room.
    fn made<F: FnOnce(&mut [u8; 48]) -> usize>(put: F) -> Piece
        requires callable { F.IsAlwaysCallable put }
        requires short { (old : List ℕ) (n : ℕ) (new : List ℕ) → FnOnceReturnsAtMut F.FnOnce put old n new → n ≤ 48 }
    {
        let mut text = [0u8; 48];
        let length = put(&mut text);
        Piece { text, length }
    }

    pub(crate) fn number(number: u64) -> Piece {
        Piece::made(|text| put_number(text, 0, number))
    }

    pub(crate) fn signed(number: i64) -> Piece {
        Piece::made(|text| put_signed(text, 0, number))
    }

    pub(crate) fn rate(rate: i64) -> Piece {
        Piece::made(|text| put_rate(text, 0, rate))
    }

    pub(crate) fn time(seconds: u64) -> Piece {
        Piece::made(|text| put_time(text, 0, seconds))
    }

    // A size in fen in yuan, and any size in hundredths in whole ones.
    pub(crate) fn hundredths(number: u64) -> Piece {
        Piece::made(|text| put_hundredths(text, 0, number))
    }

    // The same below zero.
    fn minus(number: u64) -> Piece {
        Piece::made(|text| {
            text[0] = b'-';
            put_hundredths(text, 1, number)
        })
    }

    // An amount of fen in yuan.
    pub(crate) fn yuan(fen: i64) -> Piece {
        let far = size(fen);
        if fen < 0 {
            Piece::minus(far)
        } else {
            Piece::hundredths(far)
        }
    }

    // Two digits.
    pub(crate) fn pair(number: u64) -> Piece
        requires { number < 100 }
    {
        Piece::made(|text| put_word(text, 0, &pair(number)))
    }
}

// Puts a comma where one is due.
fn put_comma(room: &mut [u8], at: usize, due: bool) -> usize
    requires { at < length room.old }
    ensures { result ≤ at + 1 }
{
    if due {
        room[at] = b',';
        return at + 1;
    }
    at
}

// Puts a digit, behind a comma where one is due.
fn put_digit(room: &mut [u8], at: usize, comma: bool, digit: u8) -> usize
    requires { at + 2 ≤ length room.old }
    ensures { result ≤ at + 2 }
{
    let next = put_comma(&mut *room, at, comma);
    room[next] = digit;
    next + 1
}

// Puts a number with a comma between groups of three digits, and answers the place after it.
fn put_grouped(room: &mut [u8], at: usize, number: u64) -> usize
    requires { at + 40 ≤ length room.old }
    ensures { result ≤ at + 40 }
{
    let mut digits = [0u8; 20];
    let count = digits_of(number, &mut digits);
    let mut next = at;
    for (i, digit) in digits[..count].iter().enumerate() {
        next = put_digit(&mut *room, next, is_comma_before(i, count), *digit);
    }
    next
}

// Whether a comma stands before the digit i of a number: groups are counted from its end.
fn is_comma_before(i: usize, count: usize) -> bool
    requires { i < count }
{
    i != 0 && (count - i) % 3 == 0
}

// Two digits.
fn pair(number: u64) -> [u8; 2]
    requires { number < 100 }
{
    [b'0' + (number / 10) as u8, b'0' + (number % 10) as u8]
}

// Puts a size in hundredths as whole ones with two places.
fn put_hundredths(room: &mut [u8], at: usize, size: u64) -> usize
    requires { at + 43 ≤ length room.old }
    ensures { result ≤ at + 43 }
{
    let whole = put_grouped(&mut *room, at, size / 100);
    let point = put_word(&mut *room, whole, b".");
    put_word(room, point, &pair(size % 100))
}
