// Trades: what one is refused for, and what an accepted one changes (document 01, 'Trade').
#![tactic(auto)]

mod parties;
mod sides;
mod trades;

use holdings::Totals;
pub use trades::trade;

// The numbers of a trade.
#[derive(Clone, Copy)]
pub struct Deal {
    pub time: u64,
    pub code: u64,
    pub buyer: u64,
    pub seller: u64,
    pub lots: u64,
    pub rate: i64,
}

// What an accepted trade answers: the total before, the total after and the limit of each side.
#[derive(Clone, Copy)]
pub struct Dealt {
    pub buyer: Totals,
    pub seller: Totals,
}
