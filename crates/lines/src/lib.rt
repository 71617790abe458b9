// The lines of a printed day (document 01, 'A printed day'): the text of each answer, put into lent room at a place. Each function answers
// the place after its text.
#![tactic(auto)]

mod answers;
mod close_lines;
mod parts;

pub use answers::{put_answer, put_bad};
