// The values of a line: numbers, rates in per cent, times of day, and the sides of a quote.
ghost use Rattle.std.specs.Prelude.{◌+◌, ◌≤◌, ◌<◌, length};
ghost use Rattle.decimal.specs.Put.{Put};
ghost use Rattle.wording.specs.Text.{two_digits, four_digits, percent, rate_text, clock_text, time_text, side_text, value_text};

use decimal::{put_number, put_word};
use folding::unfold;
use whole::size;

// How a value is written.
#[derive(Clone, Copy)]
pub enum Style {
    Plain,
    Rate,
    Time,
    Side,
}

// Puts two digits.
fn put_two(room: &mut [u8], at: usize, number: u64) -> usize
    requires { (number < 100) × (at + 2 ≤ length room.old) }
    ensures { Put room.old at (two_digits number) result room.new }
{
    let tens = b'0' + (number / 10) as u8;
    let ones = b'0' + (number % 10) as u8;
    put_word(room, at, &[tens, ones])
}

// Puts four digits.
fn put_four(room: &mut [u8], at: usize, number: u64) -> usize
    requires { (number < 10000) × (at + 4 ≤ length room.old) }
    ensures { Put room.old at (four_digits number) result room.new }
{
    let next = put_two(&mut *room, at, number / 100);
    put_two(room, next, number % 100)
}

// Puts a rate's size in per cent.
fn put_percent(room: &mut [u8], at: usize, size: u64) -> usize
    requires { at + 26 ≤ length room.old }
    ensures { Put room.old at (percent size) result room.new }
{
    let whole = put_number(&mut *room, at, size / 10000);
    let point = put_word(&mut *room, whole, b".");
    let last = put_four(&mut *room, point, size % 10000);
    put_word(room, last, b"%")
}

// Puts a rate in per cent.
pub fn put_rate(room: &mut [u8], at: usize, rate: i64) -> usize
    requires { at + 27 ≤ length room.old }
    ensures { Put room.old at (rate_text rate) result room.new }
{
    let far = size(rate);
    if rate < 0 {
        let next = put_word(&mut *room, at, b"-");
        return put_percent(room, next, far);
    }
    put_percent(room, at, far)
}

// Puts a time of day.
fn put_clock(room: &mut [u8], at: usize, seconds: u64) -> usize
    requires { (seconds < 86400) × (at + 8 ≤ length room.old) }
    ensures { Put room.old at (clock_text seconds) result room.new }
{
    let hours = put_two(&mut *room, at, seconds / 3600);
    let colon = put_word(&mut *room, hours, b":");
    let minutes = put_two(&mut *room, colon, seconds / 60 % 60);
    let next = put_word(&mut *room, minutes, b":");
    put_two(room, next, seconds % 60)
}

// Puts a time: one that no day has as its seconds.
pub fn put_time(room: &mut [u8], at: usize, seconds: u64) -> usize
    requires { at + 20 ≤ length room.old }
    ensures { Put room.old at (time_text seconds) result room.new }
{
    if seconds < 86400 {
        put_clock(room, at, seconds)
    } else {
        put_number(room, at, seconds)
    }
}

// Puts the side of a quote.
fn put_side(room: &mut [u8], at: usize, side: u64) -> usize
    requires { at + 20 ≤ length room.old }
    ensures { Put room.old at (side_text side) result room.new }
{
    match side {
        0 => put_word(room, at, b"bid"),
        1 => put_word(room, at, b"offer"),
        _ => put_number(room, at, side),
    }
}

// Puts a value.
pub fn put_value(room: &mut [u8], at: usize, style: Style, value: u64) -> usize
    requires { at + 27 ≤ length room.old }
    ensures { Put room.old at (value_text style value) result room.new }
{
    match style {
        Style::Plain => put_number(room, at, value),
        Style::Rate => {
            let rate = unfold(value);
            put_rate(room, at, rate)
        }
        Style::Time => put_time(room, at, value),
        Style::Side => put_side(room, at, value),
    }
}
