// The cases on standard input.
ghost use Rattle.std.specs.Prelude.{◌≡◌, IfSome, Ok, [], None};
ghost use Rattle.cases.specs.Lines.{without_return, case_line, WritesBy};

use super::bad::Bad;
use super::line::{case_line, write_bad};
use std::io;
use std::io::{BufRead, BufReader, BufWriter, Write};

// Answers a line: `lines` is then what is written for it, nothing where it is no case line.
fn answer_line<F>(line: &[u8], lines: &mut Vec<u8>, answer: &mut F) -> io::Result<()>
where
    F: FnMut(&[u8], &mut Vec<u8>) -> Result<io::Result<()>, Bad>,
    requires { F.IsAlwaysCallable answer.old }
    ensures again { F.IsAlwaysCallable answer.new }
    ensures skipped { case_line (without_return line.now) ≡ None → (result ≡ Ok tt) × (lines.new.items ≡ []) × (answer.new ≡ answer.old) }
    ensures answered { IfSome (case_line (without_return line.now)) (λ text. WritesBy F.FnMut answer.old text answer.new result lines.new.items) }
{
    lines.clear();
    let Some(line) = case_line(line) else {
        return Ok(());
    };
    match answer(line, lines) {
        Ok(written) => written,
        Err(Bad::NoCase) => {
            // what `answer` had added goes
            lines.clear();
            Ok(write_bad(lines, line)?)
        }
        Err(Bad::NoMemory) => Err(io::Error::from(io::ErrorKind::OutOfMemory)),
    }
}

// Answers every line: `answer` reads a line's case, and adds to the lines that are written what it answers.
pub fn answer_lines<F>(rt: &HostRuntime, mut answer: F) -> io::Result<()>
where
    F: FnMut(&[u8], &mut Vec<u8>) -> Result<io::Result<()>, Bad>,
    requires { F.IsAlwaysCallable answer }
{
    let heap = rt.alloc();
    let mut out = BufWriter::new(heap, rt.stdout())?;
    let mut lines = Vec::new(heap);
    for line in BufReader::new(heap, rt.stdin())?.split(heap, b'\n') {
        answer_line(line?.as_slice(), &mut lines, &mut answer)?;
        out.write_all(lines.as_slice())?;
    }
    out.flush()
}
