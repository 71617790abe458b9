// The printed day (document 01, 'A printed day'): one record of a file called on a book and printed; and a run that takes a file in
// blocks and prints it.
#![tactic(auto)]

mod one_record;
mod run;

pub use one_record::{Printed, print_record};
pub use run::run_day;
