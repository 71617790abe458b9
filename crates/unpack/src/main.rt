// Turns the event file on standard input into text on standard output (docs/GUIDE.md, 'A day as text').
#![tactic(auto)]

use packing::{UnpackError, unpack};

fn main(rt: HostRuntime) {
    if let Err(UnpackError::Damaged(place)) = unpack(&mut rt.stdin(), &mut rt.stdout()) {
        let _ = eprintln!(rt; "the file is damaged: no record can be read at byte {place}");
    }
}
