// A desk's question (docs/GUIDE.md, 'Explain a call'): the account's trades of a day are kept as the book accepts them, and at the close their
// amounts and what was carried over add up to the variation that the book books.
#![tactic(auto)]

mod contract_lines;
mod following;

pub use contract_lines::{Line, close_lines};
pub use following::{Followed, follow};
