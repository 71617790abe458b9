// Writing numbers: how many bytes they take, and the bytes put at a place of lent room.
#![tactic(auto)]

ghost use Rattle.std.specs.Prelude.{◌≡◌, ◌+◌, ◌≤◌, length};
ghost use Rattle.numbers.specs.Seven.{encode};
ghost use Rattle.numbers.specs.Several.{write_of};
ghost use Rattle.encoding.specs.Put.{put};

// How many bytes a number takes.
pub fn number_size(n: u64) -> usize
    ensures { result ≡ length (encode n) }
{
    // Counted by hand: how many groups there are is known once nothing is left.
    let mut left = n;
    let mut count: usize = 1;
    while 128 <= left {
        left /= 128;
        count += 1;
    }
    count
}

// A number, put at a place of lent room; the place after it is the answer.
pub fn write_number(room: &mut [u8], at: usize, n: u64) -> usize
    requires { at + length (encode n) ≤ length room.old }
    ensures { (result ≡ at + length (encode n)) × (room.new ≡ put room.old at (encode n)) }
{
    // The place goes up by hand: how many groups there are is known once nothing is left.
    let mut rest = n;
    let mut i = at;
    while 128 <= rest {
        room[i] = (rest % 128 + 128) as u8;
        rest /= 128;
        i += 1;
    }
    room[i] = rest as u8;
    i + 1
}

// How many bytes some numbers take.
pub fn numbers_size(list: &[u64]) -> usize
    ensures { result ≡ length (write_of list.now) }
{
    list.iter().map(|n| number_size(*n)).sum()
}

// Numbers, put at a place of lent room; the place after them is the answer.
pub fn write_numbers(room: &mut [u8], at: usize, list: &[u64]) -> usize
    requires { at + length (write_of list.now) ≤ length room.old }
    ensures { (result ≡ at + length (write_of list.now)) × (room.new ≡ put room.old at (write_of list.now)) }
{
    let mut place = at;
    for n in list {
        place = write_number(&mut *room, place, *n);
    }
    place
}
