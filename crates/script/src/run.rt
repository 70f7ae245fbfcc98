// Runs cases, and writes a line for each call.
use super::line::{BLANK, write_front, write_place, write_reply, write_told};
use super::session::Session;
use cases::{Call, Case, LONGEST, Step, answer_lines, parse};
use reader::Reader;
use replies::Reply;
use source::{Cut, Narrow, Quota, Source};
use std::{env, io};

// How many calls one entry of a script makes at most.
const MOST_CALLS: u32 = 10000;

// The lines of a case.
#[derive(Drop)]
struct Report<'a> {
    id: &'a [u8],
    // whether they have all fields
    full: bool,
    // the bytes of the case that are not yet taken
    left: usize,
    lines: &'a mut Vec<u8>,
}

// Writes the line of a call, and makes its buffer blank again.
fn record<S: Source>(
    report: &mut Report,
    reader: &Reader<S>,
    call: Call,
    reply: &Reply,
    buf: &mut [u8],
) -> io::Result<()> {
    let told = reply.told();
    report.left = report.left.saturating_sub(told.taken);
    let (front, rest) = buf.split_at_mut(told.written.min(buf.len()));
    // no `any`: each byte is looked at, with no branch between, since mostly none is changed
    let spilled = rest.iter().fold(0, |changed, b| changed | (*b ^ BLANK)) != 0;
    write_reply(report.lines, report.id, call, reply)?;
    write_front(report.lines, front, spilled)?;
    write_place(report.lines, reader.position(), report.left)?;
    if report.full {
        write_told(report.lines, &told, reader.opening().is_some())?;
    }
    report.lines.push(b'\n')?;
    front.fill(BLANK);
    if spilled {
        rest.fill(BLANK);
    }
    Ok(())
}

// Makes the calls of one entry of a script.
fn run_step<S: Source>(
    session: &mut Session<S>,
    step: &Step,
    buf: &mut [u8],
    report: &mut Report,
) -> io::Result<()> {
    let mut call = step.call;
    for _ in 0..MOST_CALLS {
        let reply = session.make(call, buf, step.patience);
        record(report, session.reader(), call, &reply, buf)?;
        match reply.follower() {
            Some(next) if step.goes_on => call = next,
            _ => break,
        }
    }
    Ok(())
}

// Makes the calls of a script, each entry's with as much of the room as it is given.
fn run_script<S: Source>(
    session: &mut Session<S>,
    script: &[Step],
    room: &mut [u8],
    report: &mut Report,
) -> io::Result<()> {
    for step in script {
        let size = step.buffer.min(room.len());
        run_step(session, step, &mut room[..size], report)?;
    }
    Ok(())
}

// Makes the calls of a case.
fn run(case: &Case, room: &mut [u8], report: &mut Report) -> io::Result<()> {
    let cut = Cut::new(case.bytes.as_slice(), case.cuts.as_slice(), case.fault);
    let source = Quota::new(Narrow::new(cut, case.narrow), case.quota);
    let mut session = Session::new(source, case.start);
    let done = run_script(&mut session, case.script.as_slice(), room, report);
    session.close();
    done
}

// Answers every line of standard input; with all fields where the program is called with the word `full`.
pub fn replay(rt: &HostRuntime) -> io::Result<()> {
    let heap = rt.alloc();
    let full = env::args(rt)?.skip(1).any(|arg| arg.as_str() == "full");
    let mut room = vec![in heap; BLANK; LONGEST]?;
    answer_lines(rt, |line, lines| {
        let case = parse(heap, line)?;
        let mut report = Report {
            id: case.id,
            full,
            left: case.bytes.len(),
            lines,
        };
        Ok(run(&case, room.as_mut_slice(), &mut report))
    })
}
