// The parts of a line: its kind, a field, an exception. Each text is what `wording` puts.
ghost use Rattle.std.specs.Prelude.{◌≡◌, ◌≤◌, ◌<◌, length};
ghost use Rattle.fields.specs.Fields.{count};
ghost use Rattle.wording.specs.Words.{word_of};
ghost use Rattle.wording.specs.Text.{value_text, field_text, exception_text};
ghost use Rattle.parsing.specs.Places.{Whether, Begins, KindIn, ReadsAt};

use crate::guessing::guess;
use scan::byte_end;
use wording::{Style, put_kind, put_label, put_value, style_of};

// No word of a kind is longer, no label, and no value.
const WORD: usize = 7;

const LABEL: usize = 12;

const VALUE: usize = 27;

// Whether a text is the word of a kind.
fn is_kind(word: &[u8], kind: u64) -> bool
    requires { kind < 13 }
    ensures { Whether (word.now ≡ word_of kind) result }
{
    let mut room = [0; WORD];
    let size = put_kind(&mut room, 0, kind);
    word == &room[..size]
}

// The kind whose word a text is, if it is one's.
pub(crate) fn kind_in(word: &[u8]) -> Option<u64>
    ensures { KindIn word.now result }
{
    for kind in 0..13 {
        if is_kind(word, kind) {
            return Some(kind);
        }
    }
    None
}

// Whether a text begins with a word.
fn begins_with(text: &[u8], word: &[u8]) -> bool
    ensures { Begins text.now word.now result }
{
    text.starts_with(word)
}

// Whether a text is that of a value.
fn is_value(word: &[u8], style: Style, value: u64) -> bool
    ensures { Whether (word.now ≡ value_text style value) result }
{
    let mut room = [0; VALUE];
    let size = put_value(&mut room, 0, style, value);
    word == &room[..size]
}

// The value at a place, up to the next space or the end, and the place after it, if a value stands there.
fn value_at(line: &[u8], at: usize, style: Style) -> Option<(u64, usize)>
    requires { at ≤ length line.now }
    ensures { ReadsAt (value_text style) line.now at result }
{
    let end = byte_end(line, at, b' ');
    let value = guess(&line[at..end], style);
    if is_value(&line[at..end], style, value) {
        return Some((value, end));
    }
    None
}

// The field of a kind at a place: what stands before its value, and the value.
pub(crate) fn field_at(line: &[u8], at: usize, kind: u64, field: usize) -> Option<(u64, usize)>
    requires { (at ≤ length line.now) × (field < count kind) }
    ensures { ReadsAt (field_text kind field) line.now at result }
{
    let mut room = [0; LABEL];
    let size = put_label(&mut room, 0, kind, field);
    if !begins_with(&line[at..], &room[..size]) {
        return None;
    }
    value_at(line, at + size, style_of(kind, field))
}

// The exception at a place: a space and a number.
pub(crate) fn exception_at(line: &[u8], at: usize) -> Option<(u64, usize)>
    requires { at ≤ length line.now }
    ensures { ReadsAt exception_text line.now at result }
{
    if !begins_with(&line[at..], b" ") {
        return None;
    }
    value_at(line, at + 1, Style::Plain)
}
