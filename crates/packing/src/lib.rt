// Event files as text and text as event files, from one open file to another (docs/GUIDE.md, 'A day as text').
#![tactic(auto)]

mod complaints;
mod one_line;
mod packed;
mod squeezed;
mod unpacked;

pub use packed::{PackError, pack};
pub use unpacked::{UnpackError, unpack};
