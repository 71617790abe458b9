// The number that a value's text may stand for. A guess is loose: whoever asks writes it out again and compares.
ghost use Rattle.std.specs.Prelude.{◌≡◌, ◌≤◌, ◌<◌, get_or};
ghost use Rattle.parsing.specs.Guess.{digit_at, number_of, two_at, time_in, size_in, doubled, rate_in, side_in, guessed};

use scan::{byte_end, number_in};
use wording::Style;

// No rate of 64 bits has more whole per cents.
const PERCENTS: u64 = 922337203685477;

// The byte at a place, 0 past the end.
fn byte_at(word: &[u8], at: usize) -> u8
    ensures { result ≡ get_or word.now at 0 }
{
    word.get(at).copied().unwrap_or(0)
}

// What a digit stands for.
fn digit_at(word: &[u8], at: usize) -> u64
    ensures { (result ≡ digit_at word.now at) × (result ≤ 207) }
{
    u64::from(byte_at(word, at).saturating_sub(b'0'))
}

// What two digits stand for.
fn two_at(word: &[u8], at: usize) -> u64
    requires { at < 8 }
    ensures { (result ≡ two_at word.now at) × (result ≤ 2277) }
{
    digit_at(word, at) * 10 + digit_at(word, at + 1)
}

// The number that digits stand for, and 0 for anything else.
fn number_of(word: &[u8]) -> u64
    ensures { result ≡ number_of word.now }
{
    let Some(number) = number_in(word) else {
        return 0;
    };
    number
}

// The seconds of a time of day, or a number.
fn time_in(word: &[u8]) -> u64
    ensures { result ≡ time_in word.now }
{
    if byte_at(word, 2) == b':' {
        return two_at(word, 0) * 3600 + two_at(word, 3) * 60 + two_at(word, 6);
    }
    number_of(word)
}

// The size of a rate, in 0.0001%.
fn size_in(word: &[u8]) -> u64
    ensures { result ≡ size_in word.now }
{
    let point = byte_end(word, 0, b'.');
    let whole = number_of(&word[..point]);
    if PERCENTS < whole {
        return 0;
    }
    let places = &word[point..];
    whole * 10000 + two_at(places, 1) * 100 + two_at(places, 3)
}

// Twice a number, and 0 where 64 bits do not hold it.
fn doubled(number: u64) -> u64
    ensures { (result ≡ doubled number) × (result ≤ 18446744073709551614) }
{
    number.checked_mul(2).unwrap_or(0)
}

// A rate, folded: twice its size, and one less below zero.
fn rate_in(word: &[u8]) -> u64
    ensures { result ≡ rate_in word.now }
{
    if byte_at(word, 0) == b'-' {
        let size = size_in(&word[1..]);
        if size == 0 {
            return 0;
        }
        return doubled(size - 1) + 1;
    }
    doubled(size_in(word))
}

// The side of a quote by its first letter, or a number.
fn side_in(word: &[u8]) -> u64
    ensures { result ≡ side_in word.now }
{
    match byte_at(word, 0) {
        b'b' => 0,
        b'o' => 1,
        _ => number_of(word),
    }
}

// The value that a text may stand for.
pub(crate) fn guess(word: &[u8], style: Style) -> u64
    ensures { result ≡ guessed style word.now }
{
    match style {
        Style::Plain => number_of(word),
        Style::Rate => rate_in(word),
        Style::Time => time_in(word),
        Style::Side => side_in(word),
    }
}
