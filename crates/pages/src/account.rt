// What an explanation says of the account: its money, and the call in words.
use crate::page::Page;
use crate::pieces::Piece;
use particulars::Parts;
use reports::Bill;
use whole::size;

// The ends of the fen and of the yuan.
const FEN: usize = 76;

const YUAN: usize = 100;

// Ends the line that began at `start` with an amount in fen and in yuan.
fn put_amount(page: &mut Page<'_>, start: usize, fen: i64) {
    page.put_right(start, FEN, Piece::signed(fen));
    page.put_right(start, YUAN, Piece::yuan(fen));
    page.put(b"\n");
}

// Puts an amount after its label.
fn put_labelled(page: &mut Page<'_>, label: &[u8], fen: i64) {
    let start = page.used;
    page.put(label);
    put_amount(page, start, fen);
}

// Puts the part of the requirement that the clearing limit gives.
fn put_basis(page: &mut Page<'_>, p: Parts) {
    let start = page.used;
    page.put(b"  clearing limit ");
    page.put_piece(Piece::number(p.clearing));
    page.put(b" lots at ");
    page.put_piece(Piece::number(p.reference));
    page.put(b" fen");
    put_amount(page, start, p.basis);
}

// Puts the part that the day-end total gives beyond it.
fn put_over(page: &mut Page<'_>, p: Parts) {
    let start = page.used;
    page.put(b"  over-limit: total ");
    page.put_piece(Piece::signed(p.total));
    page.put(b", multiplier ");
    page.put_piece(Piece::hundredths(p.multiplier));
    put_amount(page, start, p.over);
}

// Puts the requirement and its parts.
fn put_requirement(page: &mut Page<'_>, requirement: i64, p: Parts) {
    put_labelled(page, b"requirement", requirement);
    put_basis(page, p);
    put_over(page, p);
    put_labelled(page, b"  special margin", p.special);
}

// Puts the account's money after the close. `unpaid` was due before it.
pub(crate) fn put_money(page: &mut Page<'_>, unpaid: i64, b: Bill, p: Parts) {
    page.put(b"\n                                        ");
    page.put(b"                                 fen                    yuan\n");
    put_labelled(page, b"due before the close", unpaid);
    put_labelled(page, b"variation of the day", b.variation);
    put_labelled(page, b"due", b.due);
    put_labelled(page, b"margin", p.margin);
    put_requirement(page, b.requirement, p);
    put_labelled(page, b"free: margin + due - requirement", b.free);
    put_labelled(page, b"cash", p.cash);
}

// Puts an amount in fen and, in brackets, in yuan.
fn put_both(page: &mut Page<'_>, fen: u64) {
    page.put_piece(Piece::number(fen));
    page.put(b" fen (");
    page.put_piece(Piece::hundredths(fen));
    page.put(b" yuan)");
}

// Puts what is to be paid where margin is missing, by what there is in cash.
fn put_needed(page: &mut Page<'_>, need: u64, cash: u64) {
    put_both(page, need);
    if need <= cash {
        page.put(b" are to be paid. Cash covers them at the next settlement.");
        return;
    }
    page.put(b" are to be paid. Cash does not cover them: ");
    put_both(page, need - cash);
    page.put(b" must be paid in before the next settlement.");
}

// Puts what is free.
fn put_free(page: &mut Page<'_>, free: u64) {
    page.put(b"nothing is to be paid. ");
    put_both(page, free);
    page.put(b" are free.");
}

// Puts what the next settlement asks for.
fn put_asked(page: &mut Page<'_>, free: i64, cash: i64) {
    if 0 <= free {
        put_free(page, size(free));
    } else if cash < 0 {
        put_needed(page, size(free), 0);
    } else {
        put_needed(page, size(free), size(cash));
    }
}

// Puts the call.
pub(crate) fn put_call(page: &mut Page<'_>, free: i64, cash: i64, in_default: bool) {
    page.put(b"\ncall: ");
    put_asked(page, free, cash);
    if in_default {
        page.put(b" The account is in default.\n");
    } else {
        page.put(b"\n");
    }
}
