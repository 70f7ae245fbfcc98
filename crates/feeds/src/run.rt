// Runs cases, and writes a line for each.
use super::case::parse;
use super::scan::{Answers, feed_scanner};
use cases::answer_lines;
use std::io;
use std::io::Write;

fn write_answers(lines: &mut Vec<u8>, id: &[u8], given: &Answers) -> io::Result<()> {
    lines.extend_from_slice(id)?;
    let mut separator = b'\t';
    for place in given.places.iter() {
        lines.push(separator)?;
        separator = b',';
        match place {
            Some(place) => write!(lines, "Some({place})")?,
            None => lines.extend_from_slice(b"None")?,
        }
    }
    match given.fault {
        Some(fault) => write!(lines, "\tSyntax:{fault:?}")?,
        None => lines.extend_from_slice(b"\t-")?,
    }
    lines.push(b'\n')?;
    Ok(())
}

// Answers every line of standard input.
pub fn replay_feed(rt: &HostRuntime) -> io::Result<()> {
    let heap = rt.alloc();
    answer_lines(rt, |line, lines| {
        let case = parse(heap, line)?;
        let given = feed_scanner(heap, case.scanner, case.runs.as_slice())?;
        Ok(write_answers(lines, case.id, &given))
    })
}
