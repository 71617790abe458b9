// The rows of an account's trades on a day.
ghost use Rattle.std.specs.Prelude.{◌*◌, ◌<◌, ◌≤◌, length};

use trail::{Row, load_row};

// The cells of a table, of which so many rows are used.
#[derive(Clone, Copy)]
pub(crate) struct Rows<'a> {
    pub counts: &'a [u64],
    pub money: &'a [i64],
    pub used: usize,
    ghost within: { (used * 3 ≤ length counts.now) × (used * 6 ≤ length money.now) },
}

impl Rows<'_> {
    // The row at a place.
    pub(crate) fn get(&self, i: usize) -> Row
        requires { i < self.now.used }
    {
        load_row(self.counts, self.money, i)
    }

    // Whether one of the rows is of a code.
    pub(crate) fn has(&self, code: u64) -> bool {
        (0..self.used).any(|i| self.get(i).code == code)
    }
}
