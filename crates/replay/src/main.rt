// Makes the calls of the cases on standard input, and writes what they answer to standard output.
#![tactic(auto)]

use script::replay;
use std::io;

fn main(rt: HostRuntime) -> io::Result<()> {
    replay(&rt)
}
