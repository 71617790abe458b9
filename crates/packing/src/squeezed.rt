// A line as a person writes it, squeezed to the form that is read: remarks and needless spaces left out.
ghost use Rattle.std.specs.Prelude.{◌+◌, ◌≤◌, length};
ghost use Rattle.packing.specs.Packs.{Inside};

use scan::byte_end;

// Whether a byte separates words.
fn is_space(byte: u8) -> bool {
    matches!(byte, b' ' | b'\t' | b'\r')
}

// How many bytes are put for a byte: none for a space, and one more where spaces stood before it and something before these.
fn puts(byte: u8, spaced: bool, done: usize) -> usize {
    if is_space(byte) {
        0
    } else if spaced && 0 < done {
        2
    } else {
        1
    }
}

// Puts so many bytes: a byte is the last of them, and a space is before it.
fn put_last(line: &mut [u8], done: usize, more: usize, byte: u8)
    requires { done + more ≤ length line.old }
{
    if more == 0 {
        return;
    }
    let last = done + more - 1;
    line[done] = b' ';
    line[last] = byte;
}

// Puts the words of a text with one space between them.
fn squeeze_words(text: &[u8], line: &mut [u8]) -> Option<usize>
    ensures { Inside (length line.old) result }
{
    let mut done: usize = 0;
    let mut spaced = false;
    for byte in text {
        let more = puts(*byte, spaced, done);
        if line.len() - done < more {
            return None;
        }
        put_last(&mut *line, done, more, *byte);
        done += more;
        spaced = more == 0;
    }
    Some(done)
}

// Puts a line without its remark.
pub(crate) fn squeeze(text: &[u8], line: &mut [u8]) -> Option<usize>
    ensures { Inside (length line.old) result }
{
    let end = byte_end(text, 0, b'#');
    squeeze_words(&text[..end], line)
}
