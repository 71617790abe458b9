// The line of a record, without its line feed.
ghost use Rattle.std.specs.Prelude.{◌≡◌, true, ◌+◌, ◌≤◌, ◌<◌, length, take};
ghost use Rattle.lists.specs.Block.{block};
ghost use Rattle.decimal.specs.Put.{Put};
ghost use Rattle.fields.specs.Fields.{count, shaped};
ghost use Rattle.wording.specs.Text.{field_text, fields_text, exception_text, record_text};

use crate::labels::{put_kind, put_label, style_of};
use crate::values::put_value;
use decimal::{put_number, put_word};
use fields::{WIDTH, count_of};

// No line is longer: a word, thirteen fields and four hundred exceptions.
pub const LONGEST: usize = 8914;

// Puts a field: what stands before it and its value.
fn put_field(room: &mut [u8], at: usize, kind: u64, field: usize, value: u64) -> usize
    requires { (field < count kind) × (at + 39 ≤ length room.old) }
    ensures { Put room.old at (field_text kind field value) result room.new }
{
    let next = put_label(&mut *room, at, kind, field);
    put_value(room, next, style_of(kind, field), value)
}

// Puts the first n fields of a kind.
fn put_fields(room: &mut [u8], at: usize, kind: u64, fields: [u64; WIDTH], n: usize) -> usize
    requires { (n ≡ count kind) × ((n ≤ 13) × (at + 507 ≤ length room.old)) }
    ensures { Put room.old at (fields_text kind 0 (take (count kind) fields)) result room.new }
{
    let mut next = at;
    for (i, field) in fields[..n].iter().enumerate() {
        next = put_field(&mut *room, next, kind, i, *field);
    }
    next
}

// Puts the exceptions of a start, each after a space.
fn put_exceptions(room: &mut [u8], at: usize, exceptions: &[u64]) -> usize
    requires { (length exceptions.now ≤ 400) × (at + 8400 ≤ length room.old) }
    ensures { Put room.old at (block exception_text exceptions.now) result room.new }
{
    let mut next = at;
    for exception in exceptions {
        let space = put_word(&mut *room, next, b" ");
        next = put_number(&mut *room, space, *exception);
    }
    next
}

// Puts a record that bytes can say.
pub fn put_record(
    room: &mut [u8],
    at: usize,
    kind: u64,
    fields: [u64; WIDTH],
    exceptions: &[u64],
) -> usize
    requires { (shaped kind fields (length exceptions.now) ≡ true) × (at + 8914 ≤ length room.old) }
    ensures { Put room.old at (record_text kind fields exceptions.now) result room.new }
{
    let Some(n) = count_of(kind) else {
        return at;
    };
    let word = put_kind(&mut *room, at, kind);
    let last = put_fields(&mut *room, word, kind, fields, n);
    put_exceptions(room, last, exceptions)
}
