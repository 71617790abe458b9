// What an explanation says of one contract: its rates and rule, the account's trades, what was carried over, and the sum.
use crate::page::Page;
use crate::pieces::Piece;
use crate::rows::Rows;
use particulars::Stood;
use trail::Row;
use whole::size;

// One contract at a close: how it stood before it, its settlement rate, the number of the rule that gave it and how many trades or quotes that rule
// used, what was carried over, and the sum of all lines. The page prints the rule's number too, and puts any, so it stays a number.
#[derive(Clone, Copy)]
pub struct Contract {
    pub stood: Stood,
    pub rate: i64,
    pub rule: u64,
    pub used: u64,
    pub carried: i64,
    pub sum: i64,
}

// The columns of the table, by their ends.
const LOTS: usize = 28;

const TRADED: usize = 40;

const OTHER: usize = 52;

const BEFORE: usize = 70;

const AFTER: usize = 88;

const LIMIT: usize = 106;

const AMOUNT: usize = 124;

// Puts a text around the number of trades or quotes that a rule used.
fn put_counted(page: &mut Page<'_>, before: &[u8], used: u64, after: &[u8]) {
    page.put(before);
    page.put_piece(Piece::number(used));
    page.put(after);
}

// Puts a rule of document 01, 'Settlement rate', in words.
fn put_rule(page: &mut Page<'_>, rule: u64, used: u64) {
    match rule {
        1 => put_counted(
            page,
            b"the lot-weighted mean of the last hour's ",
            used,
            b" trades\n",
        ),
        2 => put_counted(
            page,
            b"the lot-weighted mean of the day's last ",
            used,
            b" trades\n",
        ),
        3 => put_counted(
            page,
            b"half of the sum of the mean bid and the mean offer of the last hour's ",
            used,
            b" quotes\n",
        ),
        4 => page.put(b"the previous settlement rate\n"),
        _ => page.put(b"the final rate of the last trading day\n"),
    }
}

// Puts the contract's rates and the rule that gave the new one.
fn put_rates(page: &mut Page<'_>, x: Contract) {
    page.put(b"contract ");
    page.put_piece(Piece::number(x.stood.code));
    page.put(b": rate ");
    page.put_piece(Piece::rate(x.rate));
    page.put(b", previous ");
    page.put_piece(Piece::rate(x.stood.previous));
    page.put(b", rule ");
    page.put_piece(Piece::number(x.rule));
    page.put(b": ");
    put_rule(page, x.rule, x.used);
}

// Puts the head of the table.
fn put_head(page: &mut Page<'_>) {
    page.put(b"  time      side        lots      traded  other side");
    page.put(b"      total before       total after             limit        amount/fen\n");
}

// Puts what a side was told: its total before and after, its limit; and what the trade earned.
fn put_told(page: &mut Page<'_>, start: usize, row: Row) {
    page.put_right(start, BEFORE, Piece::signed(row.before));
    page.put_right(start, AFTER, Piece::signed(row.after));
    page.put_right(start, LIMIT, Piece::signed(row.limit));
    page.put_right(start, AMOUNT, Piece::signed(row.amount));
    page.put(b"\n");
}

// Puts a trade.
fn put_trade(page: &mut Page<'_>, row: Row) {
    let start = page.used;
    page.put(b"  ");
    page.put_piece(Piece::time(row.time));
    if row.lots < 0 {
        page.put(b"  sold");
    } else {
        page.put(b"  bought");
    }
    page.put_right(start, LOTS, Piece::number(size(row.lots)));
    page.put_right(start, TRADED, Piece::rate(row.rate));
    page.put_right(start, OTHER, Piece::number(row.other));
    put_told(page, start, row);
}

// Puts what was carried over.
fn put_carried(page: &mut Page<'_>, x: Contract) {
    let start = page.used;
    page.put(b"  carried over");
    page.put_right(start, LOTS, Piece::signed(x.stood.net));
    page.put_right(start, TRADED, Piece::rate(x.stood.previous));
    page.put_right(start, AMOUNT, Piece::signed(x.carried));
    page.put(b"\n");
}

// Puts the sum.
fn put_sum(page: &mut Page<'_>, x: Contract) {
    let start = page.used;
    page.put(b"  sum");
    page.put_right(start, AMOUNT, Piece::signed(x.sum));
    page.put(b"\n");
}

// Puts the trades of a code.
fn put_trades(page: &mut Page<'_>, rows: Rows<'_>, code: u64) {
    for i in 0..rows.used {
        let row = rows.get(i);
        if row.code == code {
            put_trade(page, row);
        }
    }
}

// Puts all of a contract. The account may have nothing to do with it: no trade of the day in it, and nothing carried over.
pub(crate) fn put_contract(page: &mut Page<'_>, rows: Rows<'_>, x: Contract) {
    put_rates(page, x);
    if x.stood.net == 0 && !rows.has(x.stood.code) {
        page.put(b"  nothing traded, nothing carried over\n");
        return;
    }
    put_head(page);
    put_trades(page, rows, x.stood.code);
    put_carried(page, x);
    put_sum(page, x);
}
