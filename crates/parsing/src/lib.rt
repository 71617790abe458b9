// A record read from its line of text (docs/GUIDE.md, 'A day as text'). A line is read strictly: what reads is what
// `wording` would write. So a value is guessed loosely, written out again, and compared.
#![tactic(auto)]

mod guessing;
mod line;
mod parts;

pub use line::{LineError, Reading, read_line};
