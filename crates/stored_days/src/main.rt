// Prints the days of the event files that its arguments name, each under a line with the file's name.
#![tactic(auto)]

use memory::{COUNTS, MONEY};
use printing::run_day;
use std::env::{Env, FillError};
use std::fs;
use std::io::{self, Write};
use std::rt::Files;

// The file at a path, if it can be opened.
fn open<R: Files>(rt: &R, path: &[u8]) -> Option<R::File> {
    let name = str::from_utf8(path).ok()?;
    fs::open(rt, name).ok()
}

// Prints the day of one file, and answers whether all of it was written. A file that cannot be opened is named, and the next one is tried.
fn print_file<R: Files + Print>(rt: &R, path: &[u8]) -> bool {
    let mut output = io::writer(rt);
    let _ = output.write_all(path);
    let Some(mut input) = open(rt, path) else {
        return output.write_all(b" cannot be read\n").is_ok();
    };
    let _ = output.write_all(b"\n");
    let mut counts = [0u64; COUNTS];
    let mut money = [0i64; MONEY];
    run_day(&mut counts, &mut money, &mut input, &mut output)
}

// Prints the file that an argument names, and answers whether the next one is to be printed. An argument that is too long names no file.
fn print_argument<R: Files + Env + Print>(rt: &R, i: usize) -> bool {
    let mut path = [0u8; 4096];
    match rt.arg(i, &mut path) {
        Ok(length) => print_file(rt, &path[..length]),
        Err(FillError::TooLong) => print_file(rt, b""),
        Err(FillError::NotPresent) => false,
    }
}

fn main(rt: HostRuntime) {
    for i in 1..usize::MAX {
        if !print_argument(&rt, i) {
            return;
        }
    }
}
