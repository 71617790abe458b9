// The text of an answer: a record's line, and after an accepted close its report.
ghost use Rattle.std.specs.Prelude.{[], ◌∷◌, ◌++◌, ◌+◌, ◌≤◌, length};
ghost use Rattle.decimal.specs.Decimal.{numeral};
ghost use Rattle.decimal.specs.Put.{Put};
ghost use Rattle.book.specs.Called.{answer_of};
ghost use Rattle.model.specs.Answers.{refused, not_next, done, report, report_of};
ghost use Rattle.standing.specs.Standing.{view};
ghost use Rattle.standing.specs.Made.{Sound};
ghost use Rattle.lines.specs.Lines.{no, spaced, answer_text, bad_text};

use crate::close_lines::put_report;
use crate::parts::{put_end, put_field};
use book::Answer;
use decimal::{put_number, put_word};
use memory::{COUNTS, MONEY};
use reports::day_of;

// Puts the kind of a refused record and the number of its refusal.
fn put_refusal(room: &mut [u8], at: usize, kind: u64, number: u64) -> usize
    requires { at + 44 ≤ length room.old }
    ensures { Put room.old at (numeral kind ++ spaced (no ∷ numeral number ∷ [])) result room.new }
{
    let first = put_number(room, at, kind);
    let second = put_word(room, first, b" no");
    put_field(room, second, number)
}

// Puts the line of a refused record.
fn put_refused(room: &mut [u8], at: usize, kind: u64, number: u64) -> usize
    requires { at + 45 ≤ length room.old }
    ensures { Put room.old at (answer_text kind (refused number)) result room.new }
{
    let last = put_refusal(room, at, kind, number);
    put_end(room, last)
}

// Puts the line of an open that is not the next working day: refusal 20 and the day that is.
fn put_not_next(room: &mut [u8], at: usize, kind: u64, day: u64) -> usize
    requires { at + 66 ≤ length room.old }
    ensures { Put room.old at (answer_text kind (not_next day)) result room.new }
{
    let first = put_refusal(room, at, kind, 20);
    let last = put_field(room, first, day);
    put_end(room, last)
}

// Puts the line of an accepted record.
fn put_done(room: &mut [u8], at: usize, kind: u64) -> usize
    requires { at + 24 ≤ length room.old }
    ensures { Put room.old at (answer_text kind done) result room.new }
{
    let first = put_number(room, at, kind);
    put_word(room, first, b" ok\n")
}

// Puts the line of an accepted close and its report.
fn put_closed(
    counts: &[u64; COUNTS],
    money: &[i64; MONEY],
    room: &mut [u8],
    at: usize,
    kind: u64,
) -> usize
    requires { Sound counts.now money.now × (at + 8400 ≤ length room.old) }
    ensures { Put room.old at (answer_text kind (report (report_of (view counts.now money.now)))) result room.new }
{
    let first = put_number(room, at, kind);
    let second = put_word(room, first, b" ok");
    let third = put_field(room, second, day_of(counts, money));
    let last = put_end(room, third);
    put_report(counts, money, room, last)
}

// Puts what the record of a kind was answered.
pub fn put_answer(
    counts: &[u64; COUNTS],
    money: &[i64; MONEY],
    kind: u64,
    answer: Answer,
    room: &mut [u8],
    at: usize,
) -> usize
    requires { Sound counts.now money.now × (at + 8400 ≤ length room.old) }
    ensures { Put room.old at (answer_text kind (answer_of (view counts.now money.now) answer)) result room.new }
{
    match answer {
        Answer::Refused(number) => put_refused(room, at, kind, number),
        Answer::NotNext(day) => put_not_next(room, at, kind, day),
        Answer::Done | Answer::BothSides(_, _) => put_done(room, at, kind),
        Answer::Closed => put_closed(counts, money, room, at, kind),
    }
}

// Puts the line of a bad record.
pub fn put_bad(room: &mut [u8], at: usize, place: u64) -> usize
    requires { at + 30 ≤ length room.old }
    ensures { Put room.old at (bad_text place) result room.new }
{
    let next = put_word(room, at, b"bad");
    let last = put_field(room, next, place);
    put_end(room, last)
}
