// The book: one entry for a record with any values, one for bytes at a place, and a run over a whole file (document 01, 'Event records'
// and 'Refusal numbers'). The caller lends the memory: COUNTS numbers and MONEY amounts.
#![tactic(auto)]

mod bytes;
mod calls;

pub use bytes::{Fed, feed, run};
pub use calls::{Answer, call, deal_in, new_book};
