// Tries the examples that its arguments name, each by a name, an account, a day or `last`, and a code or `all`: NAME.txt is packed, unpacked and
// packed again; its day is printed and compared with NAME.day; the close is explained to the account and compared with NAME.explained.
#![tactic(auto)]

mod files;
mod paths;

ghost use Rattle.std.specs.Prelude.{◌+◌, ◌≤◌};

use explaining::explain;
use files::are_same;
use memory::{COUNTS, MONEY};
use packing::{pack, unpack};
use pages::Question;
use paths::{open, start};
use printing::run_day;
use scan::number_in;
use std::env::{Env, FillError};
use std::io::{self, Write};
use std::rt::Files;

// Packs the text of one file into another. What is wrong with a line is said among the errors.
fn pack_file<R: Files, E: Write>(rt: &R, errors: &mut E, name: &[u8], text: &str, events: &str) {
    let mut input = open(rt, name, text);
    let mut output = start(rt, name, events);
    let _packed = pack(&mut input, &mut output, errors);
}

// Unpacks one file into another.
fn unpack_file<R: Files>(rt: &R, name: &[u8], events: &str, text: &str) {
    let mut input = open(rt, name, events);
    let mut output = start(rt, name, text);
    let _unpacked = unpack(&mut input, &mut output);
}

// Prints the day of a file.
fn print_day<R: Files>(rt: &R, name: &[u8]) {
    let mut counts = [0u64; COUNTS];
    let mut money = [0i64; MONEY];
    let mut input = open(rt, name, ".events");
    let mut output = start(rt, name, ".printed");
    let _written = run_day(&mut counts, &mut money, &mut input, &mut output);
}

// Explains a close of a file.
fn explain_close<R: Files>(rt: &R, name: &[u8], q: Question) {
    let mut counts = [0u64; COUNTS];
    let mut money = [0i64; MONEY];
    let mut input = open(rt, name, ".events");
    let mut output = start(rt, name, ".answer");
    let _written = explain(&mut counts, &mut money, q, &mut input, &mut output);
}

// Says a text on standard output. The name of an example may be any bytes.
fn say<P: Print>(rt: &P, text: &[u8]) {
    let _said = io::writer(rt).write_all(text).is_ok();
}

// Says whether two files of an example are the same.
fn compare<R: Files + Print>(rt: &R, name: &[u8], made: &str, stored: &str) {
    let mut first = open(rt, name, made);
    let mut second = open(rt, name, stored);
    say(rt, name);
    say(rt, made.as_bytes());
    if are_same(&mut first, &mut second) {
        say(rt, b" is ");
    } else {
        say(rt, b" differs from ");
    }
    say(rt, name);
    say(rt, stored.as_bytes());
    say(rt, b"\n");
}

// Tries an example.
fn try_example<R: Files + Print, E: Write>(rt: &R, errors: &mut E, name: &[u8], q: Question) {
    pack_file(rt, errors, name, ".txt", ".events");
    unpack_file(rt, name, ".events", ".unpacked");
    pack_file(rt, errors, name, ".unpacked", ".again");
    compare(rt, name, ".again", ".events");
    print_day(rt, name);
    compare(rt, name, ".printed", ".day");
    explain_close(rt, name, q);
    compare(rt, name, ".answer", ".explained");
}

// Whether there is an argument at a place.
fn is_given<R: Env>(rt: &R, i: usize) -> bool {
    let mut text = [0u8; 1];
    match rt.arg(i, &mut text) {
        Err(FillError::NotPresent) => false,
        _ => true,
    }
}

// The number that an argument is, if it is one.
fn number_at<R: Env>(rt: &R, i: usize) -> Option<u64> {
    let mut text = [0u8; 4096];
    let length = rt.arg(i, &mut text).unwrap_or(0);
    number_in(&text[..length])
}

// Tries the example that an argument names, with the account, the day and the code after it. A day and a code count where they are numbers.
fn try_argument<R: Files + Env + Print, E: Write>(rt: &R, errors: &mut E, i: usize)
    requires { i + 4 ≤ 18446744073709551615 }
{
    let Some(account) = number_at(rt, i + 1) else {
        return;
    };
    let day = number_at(rt, i + 2);
    let code = number_at(rt, i + 3);
    let mut name = [0u8; 4096];
    let length = rt.arg(i, &mut name).unwrap_or(0);
    try_example(rt, errors, &name[..length], Question { account, day, code });
}

fn main(rt: HostRuntime) {
    let mut errors = rt.stderr();
    for i in (1..=usize::MAX - 4).step_by(4) {
        if !is_given(&rt, i + 3) {
            return;
        }
        try_argument(&rt, &mut errors, i);
    }
}
