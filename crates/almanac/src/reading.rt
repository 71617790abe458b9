// Reading: a line of the input is a list of exceptions, day numbers with spaces between them.
use arrayvec::ArrayVec;
use scan::{digits_end, number_in};

// No number of a list passes this, and no list is longer.
const LARGEST: u64 = 9999;

const MOST: usize = 400;

// The days of a line, or none where it is no list.
pub(crate) fn read_days(line: &[u8]) -> Option<ArrayVec<u64, MOST>> {
    let mut days = ArrayVec::new();
    // No index: where a number ends is known once it was read.
    let mut at = 0;
    while at < line.len() {
        let end = digits_end(line, at);
        if at < end {
            let day = number_in(&line[at..end])?;
            if LARGEST < day || days.is_full() {
                return None;
            }
            days.push(day);
            at = end;
        } else if line[at] == b' ' {
            at += 1;
        } else {
            return None;
        }
    }
    Some(days)
}
