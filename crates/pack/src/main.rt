// Turns the text on standard input into an event file on standard output (docs/GUIDE.md, 'A day as text').
#![tactic(auto)]

use packing::pack;

fn main(rt: HostRuntime) {
    let _packed = pack(&mut rt.stdin(), &mut rt.stdout(), &mut rt.stderr());
}
