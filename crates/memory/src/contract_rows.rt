// The rows of the listed contracts.
ghost use Rattle.std.specs.Prelude.{◌≡◌, [], ◌∷◌, ◌<◌, length};
ghost use Rattle.memory.specs.Rows.{weighted_of, mean_of, tally_of, contract_counts, contract_money};
ghost use Rattle.memory.specs.Layout.{counts_long, Long, contract_at, with_contract_counts, with_contract_money, margin_at};

use crate::cells::put_cells;
use std::array;
use tallies::{Mean, Tally, Weighted};

// A listed contract: its code, its margin rate, its previous settlement rate, and the tally of its day.
#[derive(Clone, Copy)]
pub struct Contract {
    pub code: u64,
    pub margin: u64,
    pub previous: i64,
    pub tally: Tally,
}

fn weighted_in(c: &[u64], m: &[i64], k: usize) -> Weighted
    requires { (length c.now ≡ 12) × ((length m.now ≡ 9) × (k < 5)) }
    ensures { result ≡ weighted_of c.now m.now k }
{
    Weighted {
        weight: c[7 + k],
        rate: m[4 + k],
    }
}

fn mean_in(c: &[u64], m: &[i64], k: usize) -> Mean
    requires { (length c.now ≡ 12) × ((length m.now ≡ 9) × (k < 3)) }
    ensures { result ≡ mean_of c.now m.now k }
{
    Mean {
        sum: m[1 + k],
        weight: c[4 + k],
    }
}

fn tally_in(c: &[u64], m: &[i64]) -> Tally
    requires { (length c.now ≡ 12) × (length m.now ≡ 9) }
    ensures { result ≡ tally_of c.now m.now }
{
    Tally {
        trades: c[2],
        latest: array::from_fn(|k| weighted_in(c, m, k)),
        late: c[3],
        hour: mean_in(c, m, 0),
        quotes: [mean_in(c, m, 1), mean_in(c, m, 2)],
    }
}

pub fn load_contract(counts: &[u64], money: &[i64], k: usize) -> Contract
    requires { Long counts.now money.now × (k < 6) }
    ensures { result ≡ contract_at counts.now money.now k }
{
    let a = 410 + k * 12;
    let b = 1 + k * 9;
    let c = &counts[a..a + 12];
    let m = &money[b..b + 9];
    Contract {
        code: c[0],
        margin: c[1],
        previous: m[0],
        tally: tally_in(c, m),
    }
}

impl Contract {
    fn counts(self) -> [u64; 12]
        ensures { result ≡ contract_counts self }
    {
        let tally = self.tally;
        let [bids, offers] = tally.quotes;
        let [first, second, third, fourth, fifth] = tally.latest;
        [
            self.code,
            self.margin,
            tally.trades,
            tally.late,
            tally.hour.weight,
            bids.weight,
            offers.weight,
            first.weight,
            second.weight,
            third.weight,
            fourth.weight,
            fifth.weight,
        ]
    }

    fn money(self) -> [i64; 9]
        ensures { result ≡ contract_money self }
    {
        let tally = self.tally;
        let [bids, offers] = tally.quotes;
        let [first, second, third, fourth, fifth] = tally.latest;
        [
            self.previous,
            tally.hour.sum,
            bids.sum,
            offers.sum,
            first.rate,
            second.rate,
            third.rate,
            fourth.rate,
            fifth.rate,
        ]
    }
}

pub fn store_contract(counts: &mut [u64], money: &mut [i64], k: usize, x: Contract)
    requires { Long counts.old money.old × (k < 6) }
    ensures { (counts.new ≡ with_contract_counts counts.old k x) × (money.new ≡ with_contract_money money.old k x) }
{
    put_cells(counts, 410 + k * 12, &x.counts());
    put_cells(money, 1 + k * 9, &x.money());
}

// The margin rates of the six rows.
pub fn load_margins(counts: &[u64]) -> [u64; 6]
    requires { length counts.now ≡ counts_long }
    ensures { result ≡ margin_at counts.now 0 ∷ margin_at counts.now 1 ∷ margin_at counts.now 2 ∷ margin_at counts.now 3 ∷ margin_at counts.now 4 ∷ margin_at counts.now 5 ∷ [] }
{
    array::from_fn(|k| counts[411 + k * 12])
}
