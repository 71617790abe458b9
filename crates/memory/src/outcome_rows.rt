// The rows of what the last close found, by code.
ghost use Rattle.std.specs.Prelude.{◌≡◌, ◌<◌, length};
ghost use Rattle.memory.specs.Rows.{outcome_of, outcome_counts, outcome_money};
ghost use Rattle.memory.specs.Layout.{Long, outcome_at, with_outcome_counts, with_outcome_money};

use crate::cells::put_cells;

// A code's settlement rate, the number of the rule that gave it, and how many trades or counted quotes that used. The rule stays the
// number in its cell, as outcome_at reads it.
#[derive(Clone, Copy)]
pub struct Outcome {
    pub code: u64,
    pub rate: i64,
    pub rule: u64,
    pub used: u64,
}

pub fn load_outcome(counts: &[u64], money: &[i64], k: usize) -> Outcome
    requires { Long counts.now money.now × (k < 6) }
    ensures { result ≡ outcome_at counts.now money.now k }
{
    let a = 482 + k * 3;
    Outcome {
        code: counts[a],
        rate: money[55 + k],
        rule: counts[a + 1],
        used: counts[a + 2],
    }
}

pub fn store_outcome(counts: &mut [u64], money: &mut [i64], k: usize, x: Outcome)
    requires { Long counts.old money.old × (k < 6) }
    ensures { (counts.new ≡ with_outcome_counts counts.old k x) × (money.new ≡ with_outcome_money money.old k x) }
{
    put_cells(counts, 482 + k * 3, &[x.code, x.rule, x.used]);
    money[55 + k] = x.rate;
}
