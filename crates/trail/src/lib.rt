// A desk's table: the account's trades of the day as it sees them, row by row in two lent arrays, and what they earn at a settlement rate.
#![tactic(auto)]

ghost use Rattle.std.specs.Prelude.{◌≡◌, ◌+◌, ◌*◌, ◌≤◌, length};
ghost use Rattle.whole.specs.Within.{Within};
ghost use Rattle.lists.specs.All.{All};
ghost use Rattle.model.specs.Promises.{worth_at};
ghost use Rattle.trail.specs.Rows.{row_counts, row_money, row_of, row_at, rows_in, earned_by, priced_at};
ghost use Rattle.trail.specs.Tables.{Modest, Stored, Priced};

// A trade as one of its sides sees it: lots bought, or sold where below 0, at a rate; the other side's account; the side's total before and
// after, its limit; and what the trade earns at the settlement rate.
#[derive(Clone, Copy)]
pub struct Row {
    pub code: u64,
    pub time: u64,
    pub other: u64,
    pub lots: i64,
    pub rate: i64,
    pub before: i64,
    pub after: i64,
    pub limit: i64,
    pub amount: i64,
}

// The row that three counts and six amounts are.
fn row_in(c: &[u64], m: &[i64]) -> Row
    requires { (length c.now ≡ 3) × (length m.now ≡ 6) }
    ensures { result ≡ row_of c.now m.now }
{
    Row {
        code: c[0],
        time: c[1],
        other: c[2],
        lots: m[0],
        rate: m[1],
        before: m[2],
        after: m[3],
        limit: m[4],
        amount: m[5],
    }
}

// The row at a place.
pub fn load_row(counts: &[u64], money: &[i64], i: usize) -> Row
    requires { (i * 3 + 3 ≤ length counts.now) × (i * 6 + 6 ≤ length money.now) }
    ensures { result ≡ row_at counts.now money.now i }
{
    let c = i * 3;
    let m = i * 6;
    row_in(&counts[c..c + 3], &money[m..m + 6])
}

// Puts a row at a place.
pub fn store_row(counts: &mut [u64], money: &mut [i64], i: usize, row: Row)
    requires { (i * 3 + 3 ≤ length counts.old) × (i * 6 + 6 ≤ length money.old) }
    ensures { Stored counts.old money.old i row counts.new money.new }
{
    let c = i * 3;
    let m = i * 6;
    counts[c..c + 3].copy_from_slice(&[row.code, row.time, row.other]);
    money[m..m + 6].copy_from_slice(&[
        row.lots, row.rate, row.before, row.after, row.limit, row.amount,
    ]);
}

// What a trade earns: one rate unit on one lot is 250 fen.
pub fn worth(lots: i64, traded: i64, rate: i64) -> i64
    requires { Within 20000 lots × (Within 100000 traded × Within 100000 rate) }
    ensures { result ≡ worth_at rate (record { lots = lots; rate = traded }) }
{
    lots * (250 * (rate - traded))
}

// Sets the amount of one row, where it is of the code, and answers it; of another code it answers 0.
fn price_row(counts: &[u64], money: &mut [i64], i: usize, code: u64, rate: i64) -> i64
    requires i_in_bounds { (i * 3 + 3 ≤ length counts.now) × (i * 6 + 6 ≤ length money.old) }
    requires within { Within 100000 rate × Modest (row_at counts.now money.old i) }
    ensures value { result ≡ earned_by code rate (row_at counts.now money.old i) }
    ensures money_after { money.new ≡ priced_at code rate counts.now money.old i }
{
    let row = load_row(counts, &money[..], i);
    if code == row.code {
        let amount = worth(row.lots, row.rate, rate);
        money[i * 6 + 5] = amount;
        amount
    } else {
        0
    }
}

// Sets the amounts of the trades of a code at its settlement rate, and answers their sum.
pub fn price(counts: &[u64], money: &mut [i64], used: usize, code: u64, rate: i64) -> i64
    requires used_bound { (used ≤ 10000) × ((used * 3 ≤ length counts.now) × (used * 6 ≤ length money.old)) }
    requires within { Within 100000 rate × All Modest (rows_in counts.now money.old used) }
    ensures { Priced counts.now money.old used code rate result money.new }
{
    let mut sum = 0;
    for i in 0..used {
        sum += price_row(counts, &mut *money, i, code, rate);
    }
    sum
}
