// Explains a close of the event file on standard input to one account (docs/GUIDE.md, 'Explain a call').
#![tactic(auto)]

use explaining::explain;
use memory::{COUNTS, MONEY};
use pages::Question;
use scan::number_in;
use std::env::{Env, FillError};
use std::io::Write;

// The arguments ask for nothing that can be answered.
#[derive(Clone, Copy)]
struct Unasked;

// Whether there is an argument at a place.
fn is_given<R: Env>(rt: &R, i: usize) -> bool {
    let mut text = [0u8; 1];
    match rt.arg(i, &mut text) {
        Err(FillError::NotPresent) => false,
        _ => true,
    }
}

// The number that a text is.
fn number_of(text: &[u8]) -> Result<u64, Unasked> {
    if text.is_empty() {
        return Err(Unasked);
    }
    number_in(text).ok_or(Unasked)
}

// The argument at a place, in lent room, if it is not left out.
fn text_at<'a, R: Env>(
    rt: &R,
    i: usize,
    room: &'a mut [u8; 4096],
) -> Result<Option<&'a [u8]>, Unasked> {
    match rt.arg(i, &mut *room) {
        Ok(length) => Ok(Some(&room[..length])),
        Err(FillError::TooLong) => Err(Unasked),
        Err(FillError::NotPresent) => Ok(None),
    }
}

// The number at a place.
fn number_at<R: Env>(rt: &R, i: usize) -> Result<Option<u64>, Unasked> {
    let mut room = [0u8; 4096];
    text_at(rt, i, &mut room)?.map(number_of).transpose()
}

// The day at a place: none where it is left out, or the word `last`.
fn day_at<R: Env>(rt: &R, i: usize) -> Result<Option<u64>, Unasked> {
    let mut room = [0u8; 4096];
    text_at(rt, i, &mut room)?
        .filter(|text| *text != b"last".as_slice())
        .map(number_of)
        .transpose()
}

// The question that the arguments ask.
fn question<R: Env>(rt: &R) -> Result<Question, Unasked> {
    if is_given(rt, 4) {
        return Err(Unasked);
    }
    Ok(Question {
        account: number_at(rt, 1)?.ok_or(Unasked)?,
        day: day_at(rt, 2)?,
        code: number_at(rt, 3)?,
    })
}

fn main(rt: HostRuntime) {
    let mut output = rt.stdout();
    let Ok(q) = question(&rt) else {
        let _ = output.write_all(b"usage: explain ACCOUNT [DAY [CODE]] < FILE\n");
        return;
    };
    let mut counts = [0u64; COUNTS];
    let mut money = [0i64; MONEY];
    let _written = explain(&mut counts, &mut money, q, &mut rt.stdin(), &mut output);
}
