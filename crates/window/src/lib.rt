// A file taken in blocks: which bytes of a block are read and not yet taken, and reading on behind them. No contract can say what is read.
// What stays in hand, whatever is read, is `refill`'s to promise.
#![tactic(auto)]

ghost use Rattle.std.specs.Prelude.{◌+◌, ◌-◌, ◌≤◌, ◌≡◌, false, Decides, length, take, drop};
ghost use Rattle.window.specs.Window.{Within, LeftOf, IsWhole, Refilled};

use std::io::Read;

// How many bytes of a file are held at a time.
pub const BLOCK: usize = 65536;

// No record is longer: a kind, thirteen fields and four hundred exceptions of ten bytes each.
pub const LONGEST: usize = 4140;

// A turn that does not end a run takes at least a byte of the file, so that these, 2^47, are enough for any file: one of 128 TiB. Each takes
// at most a block, so that every place is at most 2^63.
pub const TURNS: u64 = 140737488355328;

// The bytes of a block from `from` up to `to` are read and not yet taken. The first of them is at `place` in the file. `ended`: the file
// has no more.
#[derive(Clone, Copy)]
pub struct Window {
    pub from: usize,
    pub to: usize,
    pub place: u64,
    pub ended: bool,
}

// Nothing is read yet.
pub fn first_window() -> Window
    ensures { result ≡ record { from = 0; to = 0; place = 0; ended = false } }
{
    Window {
        from: 0,
        to: 0,
        place: 0,
        ended: false,
    }
}

// What is left of a window behind a place in the block, or nothing where the file ends there.
pub fn left_of(w: Window, at: usize) -> Option<Window>
    requires from_le_at { w.from ≤ at }
    requires place_bound { w.place + (at - w.from) ≤ 18446744073709551615 }
    ensures { LeftOf w at result }
{
    if w.ended && at == w.to {
        return None;
    }
    Some(Window {
        from: at,
        to: w.to,
        place: w.place + (at - w.from) as u64,
        ended: w.ended,
    })
}

// Whether there is a next record, and the bytes that are left have it whole: they are enough for any, or the file has no more.
pub fn is_whole(left: usize, ended: bool, enough: usize) -> bool
    ensures { Decides result (IsWhole left ended enough) }
{
    0 < left && (ended || enough <= left)
}

// Moves what is left to the front of the block, and answers how much that is.
fn move_down(block: &mut [u8], from: usize, to: usize) -> usize
    requires { (from ≤ to) × (to ≤ length block.old) }
    ensures { (from + result ≡ to) × (take result block.new ≡ take result (drop from block.old)) }
{
    block.copy_within(from..to, 0);
    to - from
}

// Reads until the block is full, the file ends or a read fails, and answers how many bytes stand at the front of the block. A read that a
// signal interrupts before it moves a byte counts as one that failed.
pub fn read_full<R: Read>(input: &mut R, block: &mut [u8]) -> usize
    ensures { result ≤ length block.new }
{
    // Counted by hand: each read says how far it came, and the next one begins there.
    let mut done: usize = 0;
    while done < block.len() {
        let Ok(got) = input.read(&mut block[done..]) else {
            return done;
        };
        if got == 0 {
            return done;
        }
        done += got;
    }
    done
}

// Reads on behind what is left, unless that is `enough`. A block that is not filled has the file's end.
pub fn refill<R: Read>(input: &mut R, block: &mut [u8], w: Window, enough: usize) -> Window
    requires within { Within (length block.old) w }
    requires enough_in_bounds { enough ≤ length block.old }
    ensures { Refilled enough w block.old result block.new }
{
    if w.ended {
        return w;
    }
    if enough <= w.to - w.from {
        return w;
    }
    let left = move_down(&mut *block, w.from, w.to);
    let got = read_full(input, &mut block[left..]);
    let to = left + got;
    Window {
        from: 0,
        to,
        place: w.place,
        ended: to < block.len(),
    }
}
