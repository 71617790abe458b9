// What the fields of a record may hold: one table of ranges, read by the range check.
#![tactic(auto)]

ghost use Rattle.std.specs.Prelude.{◌≡◌, ◌<◌};
ghost use Rattle.lists.specs.Passing.{all};
ghost use Rattle.fields.specs.Fields.{day, fields_of};
ghost use Rattle.ranges.specs.Ranges.{within_ceilings, checked, number_of};
ghost use Rattle.ranges.specs.Cells.{cells_within, row};

use days::are_rising;
use fields::{WIDTH, is_shaped};

// Refusal 2: a field is out of range, or the exceptions do not rise.
#[derive(Clone, Copy, PartialEq, Eq, Debug)]
pub struct OutOfRange;

impl OutOfRange {
    // Its number in document 01.
    pub fn number(self) -> u64
        ensures { result ≡ number_of self }
    {
        2
    }
}

// The ranges of a kind's cells. Two arrays side by side, and not one of pairs, since the definition `row` of specs/Cells.antt is this struct.
#[derive(Clone, Copy)]
struct Row {
    least: [u64; WIDTH],
    greatest: [u64; WIDTH],
}

// The numbers of each field of a kind as they are written, rates folded: the least and the greatest. Past the kind's
// fields there is only zero.
const RANGES: [Row; 13] = [
    // 0 start: reference rate, multiplier, number of exceptions
    Row {
        least: [1, 100, 0, 0, 0, 0, 0, 0, 0, 0, 0, 0, 0],
        greatest: [100000000, 1000, 400, 0, 0, 0, 0, 0, 0, 0, 0, 0, 0],
    },
    // 1 enrol: account, clearing limit, tolerance
    Row {
        least: [1, 0, 0, 0, 0, 0, 0, 0, 0, 0, 0, 0, 0],
        greatest: [
            9999999,
            1000000,
            100000000000000,
            0,
            0,
            0,
            0,
            0,
            0,
            0,
            0,
            0,
            0,
        ],
    },
    // 2 pay in: account, amount
    Row {
        least: [1, 1, 0, 0, 0, 0, 0, 0, 0, 0, 0, 0, 0],
        greatest: [9999999, 100000000000000, 0, 0, 0, 0, 0, 0, 0, 0, 0, 0, 0],
    },
    // 3 pay out: account, amount
    Row {
        least: [1, 1, 0, 0, 0, 0, 0, 0, 0, 0, 0, 0, 0],
        greatest: [9999999, 100000000000000, 0, 0, 0, 0, 0, 0, 0, 0, 0, 0, 0],
    },
    // 4 release margin: account, amount
    Row {
        least: [1, 1, 0, 0, 0, 0, 0, 0, 0, 0, 0, 0, 0],
        greatest: [9999999, 100000000000000, 0, 0, 0, 0, 0, 0, 0, 0, 0, 0, 0],
    },
    // 5 special margin: account, special margin
    Row {
        least: [1, 0, 0, 0, 0, 0, 0, 0, 0, 0, 0, 0, 0],
        greatest: [9999999, 100000000000000, 0, 0, 0, 0, 0, 0, 0, 0, 0, 0, 0],
    },
    // 6 limits: account, clearing limit, tolerance
    Row {
        least: [1, 0, 0, 0, 0, 0, 0, 0, 0, 0, 0, 0, 0],
        greatest: [
            9999999,
            1000000,
            100000000000000,
            0,
            0,
            0,
            0,
            0,
            0,
            0,
            0,
            0,
            0,
        ],
    },
    // 7 open: day, six list rates, six margin rates
    Row {
        least: [0, 0, 0, 0, 0, 0, 0, 1, 1, 1, 1, 1, 1],
        greatest: [
            3652, 200000, 200000, 200000, 200000, 200000, 200000, 100000000, 100000000, 100000000,
            100000000, 100000000, 100000000,
        ],
    },
    // 8 trade: time, code, buyer, seller, lots, rate
    Row {
        least: [0, 0, 1, 1, 1, 0, 0, 0, 0, 0, 0, 0, 0],
        greatest: [
            86399, 9999, 9999999, 9999999, 1000, 200000, 0, 0, 0, 0, 0, 0, 0,
        ],
    },
    // 9 quote: time, code, side, rate
    Row {
        least: [0, 0, 0, 0, 0, 0, 0, 0, 0, 0, 0, 0, 0],
        greatest: [86399, 9999, 1, 200000, 0, 0, 0, 0, 0, 0, 0, 0, 0],
    },
    // 10 settle: none
    Row {
        least: [0, 0, 0, 0, 0, 0, 0, 0, 0, 0, 0, 0, 0],
        greatest: [0, 0, 0, 0, 0, 0, 0, 0, 0, 0, 0, 0, 0],
    },
    // 11 refresh: none
    Row {
        least: [0, 0, 0, 0, 0, 0, 0, 0, 0, 0, 0, 0, 0],
        greatest: [0, 0, 0, 0, 0, 0, 0, 0, 0, 0, 0, 0, 0],
    },
    // 12 close: final rate
    Row {
        least: [0, 0, 0, 0, 0, 0, 0, 0, 0, 0, 0, 0, 0],
        greatest: [200000, 0, 0, 0, 0, 0, 0, 0, 0, 0, 0, 0, 0],
    },
];

// The kind's row of the table. Reading it costs a copy of the table, so a record reads it once.
fn row_of(kind: usize) -> Row
    requires { kind < 13 }
    ensures { result ≡ row (fields_of kind) }
{
    RANGES[kind]
}

// Whether each of a record's cells is in range.
fn are_in_cells(kind: usize, fields: [u64; WIDTH]) -> bool
    requires { kind < 13 }
    ensures { result ≡ cells_within (fields_of kind) fields }
{
    let row = row_of(kind);
    let ends = row.least.iter().zip(row.greatest.iter());
    fields.iter().zip(ends).all(|(field, (least, greatest))| (*least..=*greatest).contains(field))
}

// Whether each exception is a day of the calendar.
fn are_days(exceptions: &[u64]) -> bool
    ensures { result ≡ all (within_ceilings day) exceptions.now }
{
    exceptions.iter().all(|exception| *exception <= 3652)
}

// Whether a record's fields are in range and its exceptions are days that rise.
// A record that no bytes can say is out of range too; who reads or writes bytes asks `is_shaped` first.
pub fn in_range(kind: u64, fields: [u64; WIDTH], exceptions: &[u64]) -> Result<(), OutOfRange>
    ensures { result ≡ checked kind fields exceptions.now }
{
    if is_shaped(kind, fields, exceptions.len())
        && are_in_cells(kind as usize, fields)
        && are_days(exceptions)
        && are_rising(exceptions)
    {
        Ok(())
    } else {
        Err(OutOfRange)
    }
}
