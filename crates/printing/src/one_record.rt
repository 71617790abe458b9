// One record of a file: called on a book, and its answer printed.
ghost use Rattle.std.specs.Prelude.{◌≡◌, ◌+◌, ◌≤◌, ◌<◌, length};
ghost use Rattle.standing.specs.Made.{Sound};
ghost use Rattle.printing.specs.Printed.{PrintedAt};

use book::feed;
use lines::{put_answer, put_bad};
use memory::{COUNTS, MONEY};

// The place after the record and the place after its text; or, for a bad record, the place after its text. No Result: text is put in both cases.
#[derive(Clone, Copy)]
pub enum Printed {
    Next(usize, usize),
    Bad(usize),
}

// The record at a place of some bytes, which is `place` in the file, on a book: its text is put into the room.
pub fn print_record(
    counts: &mut [u64; COUNTS],
    money: &mut [i64; MONEY],
    bytes: &[u8],
    at: usize,
    place: u64,
    room: &mut [u8],
    used: usize,
) -> Printed
    requires { Sound counts.old money.old × ((at < length bytes.now) × (used + 8400 ≤ length room.old)) }
    ensures { PrintedAt bytes.now at place counts.old money.old room.old used result counts.new money.new room.new }
{
    let kind = u64::from(bytes[at]);
    match feed(&mut *counts, &mut *money, bytes, at) {
        Err(_) => Printed::Bad(put_bad(room, used, place)),
        Ok(fed) => {
            let after = put_answer(&*counts, &*money, kind, fed.answer, room, used);
            Printed::Next(fed.next, after)
        }
    }
}
