// Refused trades that name the account, as the explanation lists them.
use crate::page::Page;
use crate::pieces::Piece;
use dealing::Deal;
use holdings::{Totals, is_over};

// Puts the totals before and after a trade and the limit.
fn put_totals(page: &mut Page<'_>, t: Totals) {
    page.put_piece(Piece::signed(t.before));
    page.put(b", after ");
    page.put_piece(Piece::signed(t.after));
    page.put(b", limit ");
    page.put_piece(Piece::signed(t.limit));
}

// Puts refusal 14 with the account's own totals: they say whether it is the side that is over its limit.
fn put_over(page: &mut Page<'_>, asked: Option<Totals>) {
    let Some(totals) = asked else {
        page.put(b"over the limit");
        return;
    };
    if is_over(totals) {
        page.put(b"over the limit: total before ");
    } else {
        page.put(b"the other side is over its limit: this side's total before ");
    }
    put_totals(page, totals);
}

// Puts a refusal of a trade in words. The page prints the refusal's number too, so it stays a number.
fn put_refusal(page: &mut Page<'_>, number: u64, asked: Option<Totals>) {
    match number {
        2 => page.put(b"a field is out of range"),
        3 => page.put(b"not allowed at this point of the day"),
        5 => page.put(b"an account is unknown"),
        8 => page.put(b"the code is not listed"),
        9 => page.put(b"before the day's last accepted trade or quote"),
        10 => page.put(b"outside hours"),
        11 => page.put(b"buyer is seller"),
        12 => page.put(b"an account is in default"),
        13 => page.put(b"a net position would pass 20000 lots"),
        14 => put_over(page, asked),
        _ => page.put(b"the day has 10000 trades"),
    }
}

// Puts lots bought from or sold to the other side.
fn put_sides(page: &mut Page<'_>, t: Deal, account: u64) {
    if t.buyer == account {
        page.put(b"  bought ");
        page.put_piece(Piece::number(t.lots));
        page.put(b" from ");
        page.put_piece(Piece::number(t.seller));
    } else {
        page.put(b"  sold ");
        page.put_piece(Piece::number(t.lots));
        page.put(b" to ");
        page.put_piece(Piece::number(t.buyer));
    }
}

// Puts the line of a refused trade.
pub fn put_refused(
    notes: &mut [u8],
    at: usize,
    t: Deal,
    account: u64,
    number: u64,
    asked: Option<Totals>,
) -> usize {
    let mut page = Page {
        room: notes,
        used: at,
    };
    page.put(b"  ");
    page.put_piece(Piece::time(t.time));
    page.put(b"  ");
    page.put_piece(Piece::number(t.code));
    put_sides(&mut page, t, account);
    page.put(b" at ");
    page.put_piece(Piece::rate(t.rate));
    page.put(b": ");
    page.put_piece(Piece::number(number));
    page.put(b", ");
    put_refusal(&mut page, number, asked);
    page.put(b"\n");
    page.used
}
