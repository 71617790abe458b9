// A contract's day, kept by value as a tally: trades and quotes are added one at a time, and the tally has what the rules of
// settlement need at any time (document 01, 'Settlement rate').
#![tactic(auto)]

ghost use Rattle.std.specs.Prelude.{◌≡◌, [], ◌<◌, ◌≤◌, length};
ghost use Rattle.whole.specs.Within.{Within};
ghost use Rattle.tallies.specs.Day.{in_last_hour};
ghost use Rattle.tallies.specs.Means.{mean_of, mean_with, weighted};
ghost use Rattle.tallies.specs.Tally.{tally_of, shifted, in_day, in_hour, with_trade, in_side, with_quote};
ghost use Rattle.tallies.specs.Bounds.{Small, EachSmall, Fair, Sound};

// A rate and its weight: the lots of a trade, 1 for a quote.
#[derive(Clone, Copy)]
pub struct Weighted {
    pub weight: u64,
    pub rate: i64,
}

// A mean, not yet divided: the sum of weight times rate, and the sum of the weights.
#[derive(Clone, Copy)]
pub struct Mean {
    pub sum: i64,
    pub weight: u64,
}

// A contract's day: how many trades it has had and the last five of them, the oldest first; how many of the last hour and
// their mean; the means of the last hour's quotes by side, the bids first.
#[derive(Clone, Copy)]
pub struct Tally {
    pub trades: u64,
    pub latest: [Weighted; 5],
    pub late: u64,
    pub hour: Mean,
    pub quotes: [Mean; 2],
}

// The seconds of the day at which the last hour begins and ends. The one place to change when the window does.
const WINDOW_START: u64 = 55800;

const WINDOW_END: u64 = 59400;

// Whether a time is in the last hour. Elsewhere a trade counts in the day only, and a quote nowhere.
pub fn in_last_hour(time: u64) -> bool
    ensures { result ≡ in_last_hour time }
{
    WINDOW_START <= time && time < WINDOW_END
}

impl Mean {
    // The mean with one more rate in it.
    fn with_rate(self, w: Weighted) -> Mean
        requires { Fair 10000000 self × Small w }
        ensures { result ≡ mean_with self w }
    {
        Mean {
            sum: self.sum + w.weight as i64 * w.rate,
            weight: self.weight + w.weight,
        }
    }
}

// The mean of the last five. Where the day has had fewer, the others weigh nothing.
pub fn mean_of(latest: [Weighted; 5]) -> Mean
    requires { (length latest ≡ 5) × EachSmall latest }
    ensures { result ≡ mean_of latest }
{
    let mut m = Mean { sum: 0, weight: 0 };
    for w in &latest {
        m = m.with_rate(*w);
    }
    m
}

// The last five after one more trade: the oldest goes.
fn shifted(a: [Weighted; 5], x: Weighted) -> [Weighted; 5]
    requires { length a ≡ 5 }
    ensures { result ≡ shifted a x }
{
    [a[1], a[2], a[3], a[4], x]
}

// The tally of a day with no trade and no quote.
pub fn empty_tally() -> Tally
    ensures { result ≡ tally_of [] [] }
{
    let none = Weighted { weight: 0, rate: 0 };
    let mean = Mean { sum: 0, weight: 0 };
    Tally {
        trades: 0,
        latest: [none; 5],
        late: 0,
        hour: mean,
        quotes: [mean; 2],
    }
}

impl Tally {
    // A trade counted in the day.
    fn in_day(self, w: Weighted) -> Tally
        requires { Sound self }
        ensures { result ≡ in_day self w }
    {
        Tally {
            trades: self.trades + 1,
            latest: shifted(self.latest, w),
            ..self
        }
    }

    // A trade counted in the last hour.
    fn in_hour(self, w: Weighted) -> Tally
        requires { (self.late ≤ 10000) × (Fair 10000000 self.hour × Small w) }
        ensures { result ≡ in_hour self w }
    {
        Tally {
            late: self.late + 1,
            hour: self.hour.with_rate(w),
            ..self
        }
    }

    // A quote counted on its side.
    fn in_side(self, side: usize, w: Weighted) -> Tally
        requires { Sound self × ((side < 2) × Small w) }
        ensures { result ≡ in_side self side w }
    {
        let mut quotes = self.quotes;
        quotes[side] = quotes[side].with_rate(w);
        Tally { quotes, ..self }
    }
}

// One accepted trade more.
pub fn with_trade(t: Tally, time: u64, lots: u64, rate: i64) -> Tally
    requires { Sound t × Small (weighted lots rate) }
    ensures { result ≡ with_trade t time (weighted lots rate) }
{
    let w = Weighted { weight: lots, rate };
    let x = t.in_day(w);
    if in_last_hour(time) { x.in_hour(w) } else { x }
}

// One accepted quote more: side 0 is a bid, 1 an offer. Outside the last hour it counts nowhere.
pub fn with_quote(t: Tally, time: u64, side: u64, rate: i64) -> Tally
    requires { Sound t × Within 100000 rate }
    ensures { result ≡ with_quote t time side (weighted 1 rate) }
{
    if in_last_hour(time) && side < 2 {
        t.in_side(side as usize, Weighted { weight: 1, rate })
    } else {
        t
    }
}
