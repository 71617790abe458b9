// A desk's question answered (docs/GUIDE.md, 'Explain a call'): an event file is followed to its end, and one close of it is explained for
// one account.
#![tactic(auto)]

mod followed;
mod run;

pub use run::explain;
