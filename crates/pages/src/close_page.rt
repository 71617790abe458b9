// The explanation of one close for one account.
ghost use Rattle.std.specs.Prelude.{◌*◌, ◌≤◌, length};

use crate::Question;
use crate::account::{put_call, put_money};
use crate::contracts::{Contract, put_contract};
use crate::dates::date_of;
use crate::page::Page;
use crate::pieces::Piece;
use crate::rows::Rows;
use particulars::Parts;
use reports::Bill;

// What is explained: the day, the listed contracts by rising code, what was due before the close, and what it left the account with.
#[derive(Clone, Copy)]
pub struct Close {
    pub day: u64,
    pub contracts: [Contract; 6],
    pub unpaid: i64,
    pub bill: Bill,
    pub parts: Parts,
}

// The refused trades: the bytes of their text, and how many there are.
#[derive(Clone, Copy)]
pub struct Notes {
    pub used: usize,
    pub refused: u64,
}

// So many refused trades are listed.
pub const LISTED: u64 = 1000;

// Puts the account, the day and its date.
fn put_title(page: &mut Page<'_>, account: u64, day: u64) {
    let date = date_of(day);
    page.put(b"account ");
    page.put_piece(Piece::number(account));
    page.put(b", day ");
    page.put_piece(Piece::number(day));
    page.put(b" (");
    page.put_piece(Piece::number(date.year));
    page.put(b"-");
    page.put_piece(Piece::pair(date.month % 100));
    page.put(b"-");
    page.put_piece(Piece::pair(date.day % 100));
    page.put(b")\n\n");
}

// Whether a code is shown: every one, or the one that is asked for.
pub fn is_shown(q: Question, code: u64) -> bool {
    q.code.is_none_or(|asked| code == asked)
}

// Puts the contracts that are shown.
fn put_contracts(page: &mut Page<'_>, rows: Rows<'_>, contracts: [Contract; 6], q: Question) {
    for contract in contracts {
        if is_shown(q, contract.stood.code) {
            put_contract(page, rows, contract);
        }
    }
}

// Puts the refused trades, if there are any, and how many are not listed.
fn put_notes(page: &mut Page<'_>, notes: &[u8], n: Notes) {
    if n.refused == 0 {
        return;
    }
    let Some(listed) = notes.get(..n.used) else {
        return;
    };
    page.put(b"\nrefused trades that name the account:\n");
    page.put(listed);
    if LISTED < n.refused {
        page.put(b"  and ");
        page.put_piece(Piece::number(n.refused - LISTED));
        page.put(b" more\n");
    }
}

// Puts the whole explanation at the start of the page, and answers its length. The table and the notes are lent as the caller keeps them, with
// their lengths beside, since docs/CONTRACTS.md promises this call.
pub fn put_close(
    page: &mut [u8],
    counts: &[u64],
    money: &[i64],
    used: usize,
    x: Close,
    notes: &[u8],
    n: Notes,
    q: Question,
) -> usize
    requires { (used * 3 ≤ length counts.now) × (used * 6 ≤ length money.now) }
{
    let rows = Rows {
        counts,
        money,
        used,
    };
    let mut page = Page {
        room: page,
        used: 0,
    };
    put_title(&mut page, q.account, x.day);
    put_contracts(&mut page, rows, x.contracts, q);
    put_money(&mut page, x.unpaid, x.bill, x.parts);
    put_call(&mut page, x.bill.free, x.parts.cash, x.parts.flag);
    put_notes(&mut page, notes, n);
    page.used
}
