// Calls that begin the book, enrol an account or set what it may hold: start, enrol, special margin and limits (document 01, 'The
// day').
#![tactic(auto)]

mod members;
mod settings;

pub use members::{enrol, set_limits, set_special};
pub use settings::start;
