// The one-line answers: why there is no explanation.
use crate::Question;
use crate::page::Page;
use crate::pieces::Piece;

// Puts a number between two texts at the start of a room.
fn put_about<'a>(room: &'a mut [u8], before: &[u8], number: u64, after: &[u8]) -> Page<'a> {
    let mut page = Page { room, used: 0 };
    page.put(before);
    page.put_piece(Piece::number(number));
    page.put(after);
    page
}

// Puts that a number is not known at the close of a day, and answers the length.
fn put_missing(room: &mut [u8], before: &[u8], number: u64, after: &[u8], day: u64) -> usize {
    let mut page = put_about(room, before, number, after);
    page.put_piece(Piece::number(day));
    page.put(b"\n");
    page.used
}

// Puts that the file is damaged at a place.
pub fn put_damaged(page: &mut [u8], place: u64) -> usize {
    put_about(
        page,
        b"the file is damaged: no record can be read at byte ",
        place,
        b"\n",
    )
    .used
}

// Puts that the close is not in the file.
pub fn put_no_close(page: &mut [u8], q: Question) -> usize {
    let Some(day) = q.day else {
        let mut answer = Page {
            room: page,
            used: 0,
        };
        answer.put(b"no day is closed in this file\n");
        return answer.used;
    };
    put_about(page, b"day ", day, b" is not closed in this file\n").used
}

// Puts that the account is unknown at the close of a day.
pub fn put_no_account(page: &mut [u8], q: Question, day: u64) -> usize {
    put_missing(
        page,
        b"account ",
        q.account,
        b" is unknown at the close of day ",
        day,
    )
}

// Puts that the contract is not listed at the close of a day. Where none is asked for it is contract 0.
pub fn put_no_contract(page: &mut [u8], q: Question, day: u64) -> usize {
    put_missing(
        page,
        b"contract ",
        q.code.unwrap_or(0),
        b" is not listed at the close of day ",
        day,
    )
}
