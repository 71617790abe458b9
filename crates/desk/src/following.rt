// A record of a file on a book, with an eye on one account: its accepted trades of the day are kept in a table.
ghost use Rattle.std.specs.Prelude.{◌≡◌, length};
ghost use Rattle.desk.specs.Follows.{trade_in, row_with, Tabled, Notable, FollowedAt, Followable};

use book::{Answer, feed};
use fields::WIDTH;
use folding::unfold;
use holdings::Totals;
use memory::{COUNTS, MONEY};
use records::{Malformed, read_record};
use trail::{Row, store_row};

// A record that was called: the place after it, how many rows the table has then, and the answer.
#[derive(Clone, Copy)]
pub struct Followed {
    pub next: usize,
    pub rows: usize,
    pub answer: Answer,
}

// A trade as one of its sides sees it.
fn row_with(fields: [u64; WIDTH], other: u64, lots: i64, side: Totals) -> Row
    ensures { result ≡ row_with (trade_in fields) other lots side }
{
    let rate = unfold(fields[5]);
    Row {
        code: fields[1],
        time: fields[0],
        other,
        lots,
        rate,
        before: side.before,
        after: side.after,
        limit: side.limit,
        amount: 0,
    }
}

// An accepted trade: where the account is a side it gets a row. The answer is the number of rows.
fn note_trade(
    labels: &mut [u64],
    amounts: &mut [i64],
    used: usize,
    account: u64,
    fields: [u64; WIDTH],
    buyer: Totals,
    seller: Totals,
) -> usize
    requires labels_len { (length labels.old ≡ 30000) × (length amounts.old ≡ 60000) }
    requires notable { Notable (Answer.BothSides buyer seller) (trade_in fields) used }
    ensures { Tabled (Answer.BothSides buyer seller) account (trade_in fields) labels.old amounts.old used labels.new amounts.new result }
{
    let lots = fields[4] as i64;
    if account == fields[2] {
        let row = row_with(fields, fields[3], lots, buyer);
        store_row(labels, amounts, used, row);
        return used + 1;
    }
    if account == fields[3] {
        let row = row_with(fields, fields[2], 0 - lots, seller);
        store_row(labels, amounts, used, row);
        return used + 1;
    }
    used
}

// The number of rows after a call that was answered.
fn note(
    labels: &mut [u64],
    amounts: &mut [i64],
    used: usize,
    account: u64,
    fields: [u64; WIDTH],
    answer: Answer,
) -> usize
    requires labels_len { (length labels.old ≡ 30000) × (length amounts.old ≡ 60000) }
    requires notable { Notable answer (trade_in fields) used }
    ensures { Tabled answer account (trade_in fields) labels.old amounts.old used labels.new amounts.new result }
{
    match answer {
        Answer::Refused(_number) => used,
        Answer::NotNext(_day) => used,
        Answer::Done => used,
        Answer::BothSides(buyer, seller) => note_trade(
            labels, amounts, used, account, fields, buyer, seller,
        ),
        Answer::Closed => 0,
    }
}

// The record at a place of some bytes, on a book; an accepted trade of the account gets a row, and an accepted close empties the table (its rows
// stay in memory until they are written over).
// The table is lent as the caller keeps it, with the number of its rows beside, since docs/CONTRACTS.md promises this call.
pub fn follow(
    counts: &mut [u64; COUNTS],
    money: &mut [i64; MONEY],
    labels: &mut [u64],
    amounts: &mut [i64],
    used: usize,
    bytes: &[u8],
    at: usize,
    account: u64,
) -> Result<Followed, Malformed>
    requires { Followable account counts.old money.old labels.old amounts.old used }
    ensures { FollowedAt account bytes.now at counts.old money.old labels.old amounts.old used result counts.new money.new labels.new amounts.new }
{
    let read = read_record(bytes, at)?;
    let fed = feed(counts, money, bytes, at)?;
    let rows = note(labels, amounts, used, account, read.fields, fed.answer);
    Ok(Followed {
        next: fed.next,
        rows,
        answer: fed.answer,
    })
}
