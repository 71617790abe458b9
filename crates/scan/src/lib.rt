// Text as programs read it: where a line ends, where digits end, and the number that digits stand for.
#![tactic(auto)]

ghost use Rattle.std.specs.Prelude.{◌≡◌, Bool, ℕ, ◌+◌, ◌*◌, ◌≤◌, max, length, SomeIff};
ghost use Rattle.scan.specs.Text.{first_from, byte_end, line_end, digits_end, most, number_in};

// The place of the first byte from a place on that passes a test, or the end. A place past the end is its own answer.
fn first_from<F: Fn(u8) -> bool>(text: &[u8], from: usize, test: F) -> usize
    requires { F.IsAlwaysCallable test }
    ensures first { (p : ℕ → Bool) → ((byte : ℕ) (r : Bool) → F.post test byte r → r ≡ p byte) → result ≡ first_from p text.now from }
    ensures from { from ≤ result }
    ensures end { result ≤ max from (length text.now) }
{
    match text.iter().skip(from).position(|byte| test(*byte)) {
        Some(passed) => from + passed,
        None => from.max(text.len()),
    }
}

// The place of the first such byte from a place on, or the end.
// That it lies between the place and the end follows, and is said for callers.
pub fn byte_end(text: &[u8], from: usize, byte: u8) -> usize
    ensures { (result ≡ byte_end byte text.now from) × (from ≤ result) × (result ≤ max from (length text.now)) }
{
    first_from(text, from, |b| b == byte)
}

// The place of the first line feed from a place on, or the end.
pub fn line_end(text: &[u8], from: usize) -> usize
    ensures { (result ≡ line_end text.now from) × (from ≤ result) × (result ≤ max from (length text.now)) }
{
    byte_end(text, from, b'\n')
}

// The place of the first byte from a place on that is no decimal digit, or the end.
pub fn digits_end(text: &[u8], from: usize) -> usize
    ensures { (result ≡ digits_end text.now from) × (from ≤ result) × (result ≤ max from (length text.now)) }
{
    first_from(text, from, |byte| !byte.is_ascii_digit())
}

// A number with one more digit behind it, where that is a number of 64 bits.
fn with_digit(number: u64, digit: u8) -> Option<u64>
    ensures { SomeIff result (10 * number + digit ≤ most) (10 * number + digit) }
{
    number.checked_mul(10)?.checked_add(u64::from(digit))
}

// The number that decimal digits stand for, if they stand for one of 64 bits.
pub fn number_in(digits: &[u8]) -> Option<u64>
    ensures { result ≡ number_in digits.now }
{
    let mut number: u64 = 0;
    for byte in digits {
        if !byte.is_ascii_digit() {
            return None;
        }
        number = with_digit(number, *byte - b'0')?;
    }
    Some(number)
}
