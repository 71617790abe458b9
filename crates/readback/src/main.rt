// Shows reading and writing of records at work: reads tests on standard input, one to a line, and prints what the crates
// `records`, `fields` and `ranges` make of each. reference/records.py makes the same lines from document 01, and a run is
// compared with them.
#![tactic(auto)]

mod alike;
mod files;
mod gathered;
mod lines;
mod rooms;

use gathered::Gathered;
use lines::Stop;
use std::io::{self, Read, Write};
use window::read_full;

// Puts the answer to a line: a record to be written, or an event file.
fn put_answer<W: Write>(output: &mut W, line: &[u8]) -> Result<(), Stop> {
    match line.strip_prefix(b"w") {
        Some(rest) => rooms::put_writing(output, rest),
        None => files::put_file(output, line),
    }
}

// Answers each line of the input, up to the first that is no test.
fn answer_lines<W: Write>(output: &mut W, input: &[u8]) -> io::Result<()> {
    for ended in input.split_inclusive(|byte| *byte == b'\n') {
        let line = ended.strip_suffix(b"\n").unwrap_or(ended);
        match put_answer(output, line) {
            Ok(()) => {}
            Err(Stop::NoTest) => return output.write_all(b"bad input\n"),
            Err(Stop::System(error)) => return Err(error),
        }
    }
    Ok(())
}

// Reads the whole input into lent room and answers its lines. One that fills the room may have been cut.
fn answer_input<R: Read, W: Write>(
    input: &mut R,
    output: &mut W,
    room: &mut [u8],
) -> io::Result<()> {
    let n = read_full(input, &mut *room);
    if n < room.len() {
        answer_lines(output, &room[..n])
    } else {
        output.write_all(b"bad input\n")
    }
}

// Lends an array as the room. Its length is known by its type, and is not counted out.
fn answer_within<R: Read, W: Write>(
    input: &mut R,
    output: &mut W,
    room: &mut [u8; 1048576],
) -> io::Result<()> {
    answer_input(input, output, room)
}

// Answers the input of a run.
fn main(rt: HostRuntime) {
    let mut room = [0u8; 1048576];
    let mut output = Gathered::new(rt.stdout());
    let _ = answer_within(&mut rt.stdin(), &mut output, &mut room);
    let _ = output.flush();
}
