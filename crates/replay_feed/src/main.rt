// Feeds the scanners of the cases on standard input, and writes what they answer to standard output.
#![tactic(auto)]

use feeds::replay_feed;
use std::io;

fn main(rt: HostRuntime) -> io::Result<()> {
    replay_feed(&rt)
}
