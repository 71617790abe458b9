// The positions of an account, one for each contract row: none, what a trade makes of them, and how far a net may go
// (document 01, 'Trade').
#![tactic(auto)]

ghost use Rattle.std.specs.Prelude.{◌≡◌, ◌<◌, replicate};
ghost use Rattle.whole.specs.Within.{Within};
ghost use Rattle.positions.specs.Deals.{overnight, flat, dealt, with_deal};
ghost use Rattle.positions.specs.Beyond.{is_beyond};
ghost use Rattle.positions.specs.Bounds.{Kept, Modest};

use whole::size;

// A position in one contract: the net before today and now, in lots, bought above 0 and sold below; and of today's trades
// the sum of signed lots times the traded rate.
#[derive(Clone, Copy)]
pub struct Position {
    pub before: i64,
    pub net: i64,
    pub cost: i64,
}

// How a contract is marked at a close: from its previous settlement rate to its new one, and whether it ends.
#[derive(Clone, Copy)]
pub struct Mark {
    pub previous: i64,
    pub rate: i64,
    pub ending: bool,
}

// The furthest that a net may go, in lots.
const NET_MOST: u64 = 20000;

// A position as it is carried into a day: nothing is traded yet.
pub fn overnight(net: i64) -> Position
    ensures { result ≡ overnight net }
{
    Position {
        before: net,
        net,
        cost: 0,
    }
}

// No position in any contract.
pub fn no_positions() -> [Position; 6]
    ensures { result ≡ replicate 6 flat }
{
    [overnight(0); 6]
}

// Whether a net is beyond what it may be, for refusal 13.
pub fn is_beyond(p: Position) -> bool
    ensures { result ≡ is_beyond p }
{
    NET_MOST < size(p.net)
}

impl Position {
    // One position after lots bought, or sold where below 0, at a rate.
    fn dealt(self, lots: i64, rate: i64) -> Position
        requires { Modest self × (Within 1000 lots × Within 100000 rate) }
        ensures { result ≡ dealt self lots rate }
    {
        Position {
            net: self.net + lots,
            cost: self.cost + lots * rate,
            ..self
        }
    }
}

// All positions after a trade in one contract.
pub fn with_deal(positions: [Position; 6], row: usize, lots: i64, rate: i64) -> [Position; 6]
    requires { Kept 10000 positions × ((row < 6) × (Within 1000 lots × Within 100000 rate)) }
    ensures { result ≡ with_deal positions row lots rate }
{
    let mut after = positions;
    after[row] = positions[row].dealt(lots, rate);
    after
}
