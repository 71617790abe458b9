// The contracts' rows of a new day, and the accounts' with them.
ghost use Rattle.std.specs.Prelude.{◌≡◌, ◌≤◌, length};
ghost use Rattle.lists.specs.Seek.{seek};
ghost use Rattle.memory.specs.Layout.{counts_long, Long, header_at, contract_at, code_at};
ghost use Rattle.memory.specs.Memory.{with_contracts};
ghost use Rattle.standing.specs.OpenRows.{place_found, places_by, relisted_row, rows_by, relisted_rows};
ghost use Rattle.standing.specs.Turns.{Turns};
ghost use Rattle.opening.specs.Putting.{SixRows};

use crate::members::relist_members;
use memory::{Contract, find_contract, load_contract, load_header, store_contract};
use std::array;
use tallies::empty_tally;

// The row of a code among those listed so far, 6 where it has none.
fn place_of(counts: &[u64], code: u64) -> usize
    requires { (length counts.now ≡ counts_long) × ((header_at counts.now).listed ≤ 6) }
    ensures { result ≡ place_found (seek (code_at counts.now) code (header_at counts.now).listed 0) }
{
    find_contract(counts, code).unwrap_or(6)
}

fn places_of(counts: &[u64], codes: [u64; 6]) -> [usize; 6]
    requires { (length counts.now ≡ counts_long) × ((header_at counts.now).listed ≤ 6) }
    ensures { result ≡ places_by (λ c. seek (code_at counts.now) c (header_at counts.now).listed 0) codes }
{
    codes.map(|code| place_of(counts, code))
}

// The row of a code: with the terms of the row that it had, or with the list rate and the margin rate of the record.
fn row_for(
    counts: &[u64],
    money: &[i64],
    place: usize,
    code: u64,
    rate: i64,
    margin: u64,
) -> Contract
    requires { Long counts.now money.now }
    ensures { result ≡ relisted_row (contract_at counts.now money.now place) place code rate margin }
{
    let tally = empty_tally();
    if place < 6 {
        let x = load_contract(counts, money, place);
        return Contract { code, tally, ..x };
    }
    Contract {
        code,
        margin,
        previous: rate,
        tally,
    }
}

fn rows_for(
    counts: &[u64],
    money: &[i64],
    places: [usize; 6],
    codes: [u64; 6],
    rates: [i64; 6],
    margins: [u64; 6],
) -> [Contract; 6]
    requires { Long counts.now money.now }
    ensures { result ≡ rows_by (contract_at counts.now money.now) places codes rates margins }
{
    array::from_fn(|j| row_for(counts, money, places[j], codes[j], rates[j], margins[j]))
}

fn store_rows(counts: &mut [u64], money: &mut [i64], rows: [Contract; 6])
    requires { Long counts.old money.old × SixRows rows }
    ensures { Turns counts.old money.old counts.new money.new (λ r. with_contracts r rows) }
{
    for (j, row) in rows.iter().enumerate() {
        store_contract(counts, money, j, *row);
    }
}

// The codes of a day in the rows of those listed so far, and each account's positions with them.
pub(crate) fn relist(
    counts: &mut [u64],
    money: &mut [i64],
    codes: [u64; 6],
    rates: [i64; 6],
    margins: [u64; 6],
)
    requires { Long counts.old money.old × (((header_at counts.old).listed ≤ 6) × ((header_at counts.old).members ≤ 64)) }
    ensures { Turns counts.old money.old counts.new money.new (relisted_rows codes rates margins) }
{
    let h = load_header(counts);
    let places = places_of(counts, codes);
    let rows = rows_for(counts, money, places, codes, rates, margins);
    store_rows(counts, money, rows);
    relist_members(counts, money, h.members as usize, places);
}
