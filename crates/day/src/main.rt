// The day program: prints the day of the event file on standard input (document 01, 'A printed day').
#![tactic(auto)]

use memory::{COUNTS, MONEY};
use printing::run_day;

fn main(rt: HostRuntime) {
    let mut counts = [0u64; COUNTS];
    let mut money = [0i64; MONEY];
    let mut input = rt.stdin();
    let mut output = rt.stdout();
    let _written = run_day(&mut counts, &mut money, &mut input, &mut output);
}
