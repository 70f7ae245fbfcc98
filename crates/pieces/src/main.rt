// Lists the pieces of the report on standard input: the kind, the position before it and the length of each.
#![tactic(auto)]

use listing::list_report;
use std::io::Read;

// no more of the input is read
const MOST: u64 = 65_536;

fn run(rt: &HostRuntime) -> anyhow::Result<()> {
    let mut report = Vec::new(rt.alloc());
    rt.stdin().take(MOST).read_to_end(&mut report)?;
    for line in list_report(rt.alloc(), report.as_slice())?.iter() {
        println!(rt; "{line}")?;
    }
    Ok(())
}

fn main(rt: HostRuntime) -> anyhow::Result<()> {
    run(&rt)
}
