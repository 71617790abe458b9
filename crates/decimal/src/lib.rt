// Text put into lent room: words, numbers and signed numbers in decimal digits, shortest form. Each function puts something at a place
// and answers the place after it; the rest of the room stays.
#![tactic(auto)]

ghost use Rattle.std.specs.Prelude.{◌≡◌, ◌+◌, ◌≤◌, length, take, drop};
ghost use Rattle.decimal.specs.Decimal.{numeral, signed_numeral};
ghost use Rattle.decimal.specs.Digits.{last_digits, IsDigitCount};
ghost use Rattle.decimal.specs.Put.{Put};

// A number of 64 bits has 20 digits at most.
const DIGITS: usize = 20;

// Puts a word.
pub fn put_word(room: &mut [u8], at: usize, word: &[u8]) -> usize
    requires { at + length word.now ≤ length room.old }
    ensures { Put room.old at word.now result room.new }
{
    let after = at + word.len();
    room[at..after].copy_from_slice(word);
    after
}

// How many digits a number has.
fn digit_count(number: u64) -> usize
    ensures { IsDigitCount number result }
{
    number
        .checked_ilog10()
        .map_or(1, |power| power as usize + 1)
}

// Puts so many of a number's last digits at the front of a room.
fn put_digits(number: u64, count: usize, room: &mut [u8])
    requires { count ≤ length room.old }
    ensures digits { take count room.new ≡ last_digits count number }
    ensures rest { drop count room.new ≡ drop count room.old }
{
    let mut rest = number;
    for left in (0..count).rev() {
        room[left] = b'0' + (rest % 10) as u8;
        rest /= 10;
    }
}

// Puts the digits of a number at the front of a room that holds any number's, and answers how many there are.
pub fn digits_of(number: u64, room: &mut [u8; DIGITS]) -> usize
    ensures count { result ≡ length (numeral number) }
    ensures at_most { result ≤ 20 }
    ensures digits { take result room.new ≡ numeral number }
    ensures rest { drop result room.new ≡ drop result room.old }
{
    let count = digit_count(number);
    put_digits(number, count, room);
    count
}

// Puts a number.
pub fn put_number(room: &mut [u8], at: usize, number: u64) -> usize
    requires { at + 20 ≤ length room.old }
    ensures { Put room.old at (numeral number) result room.new }
{
    let mut digits = [0u8; DIGITS];
    let count = digits_of(number, &mut digits);
    put_word(room, at, &digits[..count])
}

// Puts a signed number.
pub fn put_signed(room: &mut [u8], at: usize, number: i64) -> usize
    requires { at + 21 ≤ length room.old }
    ensures { Put room.old at (signed_numeral number) result room.new }
{
    let size = whole::size(number);
    if number < 0 {
        let next = put_word(&mut *room, at, b"-");
        return put_number(room, next, size);
    }
    put_number(room, at, size)
}
