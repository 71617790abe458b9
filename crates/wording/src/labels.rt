// The words of a line: one for each kind, and what stands before each value.
ghost use Rattle.std.specs.Prelude.{◌≡◌, ◌+◌, ◌≤◌, ◌<◌, length};
ghost use Rattle.decimal.specs.Put.{Put};
ghost use Rattle.fields.specs.Fields.{count};
ghost use Rattle.wording.specs.Words.{word_of, label_of};
ghost use Rattle.wording.specs.Text.{style_of};

use crate::values::Style;
use decimal::put_word;
use fields::is_signed;

// The word of a kind.
fn word_of(kind: u64) -> &'static [u8]
    requires { kind < 13 }
    ensures { result.now ≡ word_of kind }
{
    match kind {
        0 => b"start",
        1 => b"enrol",
        2 => b"pay-in",
        3 => b"pay-out",
        4 => b"release",
        5 => b"special",
        6 => b"limits",
        7 => b"open",
        8 => b"trade",
        9 => b"quote",
        10 => b"settle",
        11 => b"refresh",
        12.. => b"close",
    }
}

// Puts the word of a kind.
pub fn put_kind(room: &mut [u8], at: usize, kind: u64) -> usize
    requires { (kind < 13) × (at + 7 ≤ length room.old) }
    ensures { Put room.old at (word_of kind) result room.new }
{
    put_word(room, at, word_of(kind))
}

// What stands before a field of a kind: a space, and a word where the value needs one. A line for each such field, as in the
// definition's table.
fn label_of(kind: u64, field: usize) -> &'static [u8]
    requires { field < count kind }
    ensures { result.now ≡ label_of kind field }
{
    match (kind, field) {
        (0, 0) => b" reference ",
        (0, 1) => b" multiplier ",
        (0, 2) => b" exceptions ",
        (1, 1) => b" limit ",
        (1, 2) => b" tolerance ",
        (2, 1) => b" amount ",
        (3, 1) => b" amount ",
        (4, 1) => b" amount ",
        (5, 1) => b" amount ",
        (6, 1) => b" limit ",
        (6, 2) => b" tolerance ",
        (7, 1) => b" rates ",
        (7, 7) => b" margins ",
        (8, 2) => b" buyer ",
        (8, 3) => b" seller ",
        (8, 4) => b" lots ",
        (8, 5) => b" rate ",
        (12, 0) => b" final ",
        _ => b" ",
    }
}

// Puts what stands before a field of a kind.
pub fn put_label(room: &mut [u8], at: usize, kind: u64, field: usize) -> usize
    requires { (field < count kind) × (at + 12 ≤ length room.old) }
    ensures { Put room.old at (label_of kind field) result room.new }
{
    put_word(room, at, label_of(kind, field))
}

// How a field of a kind is written.
pub fn style_of(kind: u64, field: usize) -> Style
    ensures { result ≡ style_of kind field }
{
    if is_signed(kind, field) {
        return Style::Rate;
    }
    match (kind, field) {
        (8 | 9, 0) => Style::Time,
        (9, 2) => Style::Side,
        _ => Style::Plain,
    }
}
