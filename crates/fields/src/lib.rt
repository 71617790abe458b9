// The kinds of records: how many fields each has, which of them are signed, and what a record of the kind looks like.
#![tactic(auto)]

ghost use Rattle.std.specs.Prelude.{◌≡◌, drop};
ghost use Rattle.lists.specs.Passing.{all};
ghost use Rattle.fields.specs.Fields.{count_of, signed_at, announced, is_zero, shaped};

// The most fields that a kind has. Every record has room for so many, with zeros after its own.
pub const WIDTH: usize = 13;

// The most exceptions that a start record may have.
pub const EXCEPTIONS: u64 = 400;

// A record is a kind and its fields: the kind's number decides how many there are.
// The kind stays a number, here and in all that reads, checks and writes records: it comes as bytes, and an unknown one has its own answer.
#[tactic(auto, using(crate::specs::FieldLaws::none_below), unfolding(crate::specs::Fields::kinds))]
pub fn count_of(kind: u64) -> Option<usize>
    ensures { result ≡ count_of kind }
{
    match kind {
        0 => Some(3),
        1 => Some(3),
        2 => Some(2),
        3 => Some(2),
        4 => Some(2),
        5 => Some(2),
        6 => Some(3),
        7 => Some(13),
        8 => Some(6),
        9 => Some(4),
        10 => Some(0),
        11 => Some(0),
        12 => Some(1),
        13.. => None,
    }
}

// Whether a field of a kind is a rate, the only signed quantity.
#[tactic(auto, using(crate::specs::FieldLaws::signed_is))]
pub fn is_signed(kind: u64, field: usize) -> bool
    ensures { result ≡ signed_at kind field }
{
    matches!((kind, field), (7, 1..=6) | (8, 5) | (9, 3) | (12, 0))
}

// How many exceptions a record announces: a start record in its third field, any other none.
pub fn announced(kind: u64, fields: [u64; WIDTH]) -> u64
    ensures { result ≡ announced kind fields }
{
    if kind == 0 { fields[2] } else { 0 }
}

// Whether the fields from a place on are zero.
fn are_zero(fields: [u64; WIDTH], first: usize) -> bool
    ensures { result ≡ all is_zero (drop first fields) }
{
    fields.iter().skip(first).all(|field| *field == 0)
}

// Whether bytes can say this record: a known kind, nothing past its fields, and the exceptions that it announces, at
// most 400.
pub fn is_shaped(kind: u64, fields: [u64; WIDTH], exceptions: usize) -> bool
    ensures { result ≡ shaped kind fields exceptions }
{
    let Some(count) = count_of(kind) else {
        return false;
    };
    let announced = announced(kind, fields);
    are_zero(fields, count) && announced <= EXCEPTIONS && exceptions as u64 == announced
}
