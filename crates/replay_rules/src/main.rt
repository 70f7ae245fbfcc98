// The program `replay`, run on cases whose answers follow from the rules alone.
// A program is run on one input that is recorded beside it, so the same one stands here again.
#![tactic(auto)]

use script::replay;
use std::io;

fn main(rt: HostRuntime) -> io::Result<()> {
    replay(&rt)
}
