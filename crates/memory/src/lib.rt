// The book's memory: two arrays that the caller lends, counts of numbers, codes, flags and tallies, and money, signed. Rows are
// taken out of it as structs by value, and put back.
#![tactic(auto)]

mod account_rows;
mod cells;
mod contract_rows;
mod header_row;
mod outcome_rows;
mod room;
mod searches;

pub use account_rows::{load_account, store_account};
pub use contract_rows::{Contract, load_contract, load_margins, store_contract};
pub use header_row::{Header, load_header, load_house, store_header, store_house};
pub use outcome_rows::{Outcome, load_outcome, store_outcome};
pub use room::{COUNTS, MONEY, clear, store_exceptions};
pub use searches::{find_account, find_contract, find_outcome};
