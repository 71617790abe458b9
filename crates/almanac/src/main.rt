// Shows the calendar at work: reads lists of exception days on standard input, one to a line, and prints what the
// calendar makes of each. reference/calendar.py makes the same lines by real dates, and a run is compared with them.
#![tactic(auto)]

mod printing;
mod reading;

use std::io::{self, Write};
use window::read_full;

// Prints each list of the input, up to the first line that is no list or the first write that fails.
fn print_lists<W: Write>(output: &mut W, input: &[u8]) -> io::Result<()> {
    for (i, ended) in input.split_inclusive(|byte| *byte == b'\n').enumerate() {
        let line = ended.strip_suffix(b"\n").unwrap_or(ended);
        let Some(days) = reading::read_days(line) else {
            return output.write_all(b"bad input\n");
        };
        printing::print_list(output, i as u64 + 1, days.as_slice())?;
    }
    Ok(())
}

// Reads the whole input, at most 65,536 bytes, and prints its lists.
fn main(rt: HostRuntime) {
    let mut input = [0u8; 65536];
    let n = read_full(&mut rt.stdin(), &mut input);
    let _ = print_lists(&mut rt.stdout(), &input[..n]);
}
