// The calendar of document 01: when the month of a code settles and when it trades last, and what is listed on a day.
// Months come from the crate `months`, and which days are working from the crate `days`.
#![tactic(auto)]

mod codes;
mod listing;

pub use codes::{last_trading_of, settlement_of};
pub use listing::listed_on;
