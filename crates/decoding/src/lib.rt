// Reading numbers: one number and several of them, from a place of some bytes on.
#![tactic(auto)]

ghost use Rattle.std.specs.Prelude.{◌≡◌, ◌<◌, ◌≤◌, length, drop};
ghost use Rattle.numbers.specs.Several.{many};
ghost use Rattle.decoding.specs.Place.{number_at, ended, stored_from};
ghost use Rattle.decoding.specs.Groups.{Scale, last_group};

// What one unit of a tenth group counts: of that group one bit is left.
const TENTH: u64 = 9223372036854775808;

// The number whose earlier groups make `value`, each unit of its last group counting `scale`.
fn with_last(value: u64, scale: u64, group: u64, next: usize) -> Option<(u64, usize)>
    requires { Scale scale × (value < scale) × (group < 128) }
    ensures { result ≡ last_group value scale group next }
{
    if group == 0 {
        return None;
    }
    if scale == TENTH && 1 < group {
        return None;
    }
    Some((value + group * scale, next))
}

// The number at a place and the place after it, if a number stands there.
pub fn read_number(bytes: &[u8], at: usize) -> Option<(u64, usize)>
    ensures { result ≡ number_at bytes.now at }
{
    if bytes.len() <= at {
        return None;
    }
    let first = u64::from(bytes[at]);
    if first < 128 {
        return Some((first, at + 1));
    }
    let mut value = first - 128;
    let mut scale = 128;
    for (i, byte) in bytes[at + 1..].iter().enumerate() {
        let byte = u64::from(*byte);
        if byte < 128 {
            return with_last(value, scale, byte, at + i + 2);
        }
        if scale == TENTH {
            return None;
        }
        value += (byte - 128) * scale;
        scale *= 128;
    }
    None
}

// The place after n numbers, if so many stand there.
pub fn skip_numbers(bytes: &[u8], at: usize, n: u64) -> Option<usize>
    requires { at ≤ length bytes.now }
    ensures { result ≡ ended bytes.now (many n (drop at bytes.now)) }
{
    let mut place = at;
    for _ in 0..n {
        let (_, next) = read_number(bytes, place)?;
        place = next;
    }
    Some(place)
}

// As many numbers as the room has, stored there; the place after them is the answer. If not so many stand there, the
// room stays as it was: they are counted first.
pub fn read_numbers(bytes: &[u8], at: usize, room: &mut [u64]) -> Option<usize>
    ensures { (result ≡ (stored_from bytes.now at room.old).end) × (room.new ≡ (stored_from bytes.now at room.old).room) }
{
    if bytes.len() < at {
        return None;
    }
    let last = skip_numbers(bytes, at, room.len() as u64)?;
    let mut from = at;
    for slot in room.iter_mut() {
        let (n, next) = read_number(bytes, from)?;
        *slot = n;
        from = next;
    }
    Some(last)
}
