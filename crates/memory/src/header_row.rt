// The header of the book, and the house account.
ghost use Rattle.std.specs.Prelude.{◌≡◌, length};
ghost use Rattle.memory.specs.Layout.{counts_long, money_long, header_at, with_header, house_at, with_house};

use crate::cells::put_cells;

// The point of the day, the day, the clock and the day's trades; the reference rate and the multiplier; how many exceptions,
// listed contracts, outcomes of the last close and members there are. The point stays the number in its cell: header_at and with_header say what
// every number there is read as and written back to.
#[derive(Clone, Copy)]
pub struct Header {
    pub point: u64,
    pub day: u64,
    pub clock: u64,
    pub trades: u64,
    pub reference: u64,
    pub multiplier: u64,
    pub exceptions: u64,
    pub listed: u64,
    pub settled: u64,
    pub members: u64,
}

pub fn load_header(counts: &[u64]) -> Header
    requires { length counts.now ≡ counts_long }
    ensures { result ≡ header_at counts.now }
{
    Header {
        point: counts[0],
        day: counts[1],
        clock: counts[2],
        trades: counts[3],
        reference: counts[4],
        multiplier: counts[5],
        exceptions: counts[6],
        listed: counts[7],
        settled: counts[8],
        members: counts[9],
    }
}

pub fn store_header(counts: &mut [u64], h: Header)
    requires { length counts.old ≡ counts_long }
    ensures { counts.new ≡ with_header counts.old h }
{
    let cells = [
        h.point,
        h.day,
        h.clock,
        h.trades,
        h.reference,
        h.multiplier,
        h.exceptions,
        h.listed,
        h.settled,
        h.members,
    ];
    put_cells(counts, 0, &cells);
}

pub fn load_house(money: &[i64]) -> i64
    requires { length money.now ≡ money_long }
    ensures { result ≡ house_at money.now }
{
    money[0]
}

pub fn store_house(money: &mut [i64], house: i64)
    requires { length money.old ≡ money_long }
    ensures { money.new ≡ with_house money.old house }
{
    money[0] = house;
}
