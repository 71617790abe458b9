// A record as a line of text (docs/GUIDE.md, 'A day as text'), put into lent room: its kind in a word, then each field after what says
// which it is. Each function puts something at a place and answers the place after it; the rest of the room stays.
#![tactic(auto)]

mod labels;
mod record_line;
mod values;

pub use labels::{put_kind, put_label, style_of};
pub use record_line::{LONGEST, put_record};
pub use values::{Style, put_rate, put_time, put_value};
