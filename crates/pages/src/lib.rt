// The page of an explanation (docs/GUIDE.md, 'Explain a call'): what it says of each contract and each trade, of the account's money, of the call
// and of refused trades, put into lent room.
#![tactic(auto)]

mod account;
mod answers;
mod close_page;
mod contracts;
mod dates;
mod page;
mod pieces;
mod refused;
mod rows;

pub use answers::{put_damaged, put_no_account, put_no_close, put_no_contract};
pub use close_page::{Close, LISTED, Notes, is_shown, put_close};
pub use contracts::Contract;
pub use refused::put_refused;

// What is asked: an account, the day of a close or, without one, the last, and one contract or, without a code, all.
#[derive(Clone, Copy)]
pub struct Question {
    pub account: u64,
    pub day: Option<u64>,
    pub code: Option<u64>,
}
