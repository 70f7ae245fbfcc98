// Gathers a piece from a source into a buffer, a run at a time.
ghost use Rattle.std.specs.Prelude.{◌≡◌, ℕ, ◌<◌, ◌≤◌, true, length, take as front, drop as past, None};
ghost use Rattle.source.specs.Stream.{bytes_of};
ghost use Rattle.model.specs.Gather.{gather as gathering, gathered};
ghost use Rattle.model.specs.Peek.{await, awaited};
ghost use Rattle.gather.specs.Named.{named};
ghost use Rattle.gather.specs.Resume.{resumed, reach, fitted, is_byte};

use super::cutter::{Cutter, Scan};
use bang::BangType;
use errors::Error;
use parser::SyntaxError;
use source::{Look, Source};

// Each function below says that the tail of the stream stays: what is gathered or awaited is told by the items alone, since no call
// changes a tail.

// How many bytes of a run of `len` go into `room`, and how the piece ends there if it does.
fn fit<E: Drop>(
    found: Option<Scan<E>>,
    len: usize,
    room: usize,
) -> (usize, Option<Result<E, Error>>)
    requires { (reach found len).0 ≤ len }
    ensures value { result ≡ fitted found len room }
    ensures within { result.0 ≤ len }
    ensures room { result.0 ≤ room }
    ensures whole { result.1 ≡ None → (found ≡ None) × (result.0 ≡ len) }
{
    let (n, ending) = match found {
        None => (len, None),
        Some(Scan::Before(k, end)) => (k, Some(Ok(end))),
        Some(Scan::Through(k, end)) => (k + 1, Some(Ok(end))),
    };
    if n <= room {
        (n, ending)
    } else {
        (room, Some(Err(Error::BufferFull)))
    }
}

// Copies what belongs to the piece of the run that is shown, and takes it from the source.
// The buffer is lent by the caller, so its filled length goes beside it.
fn copy_run<S: Source, C: Cutter>(
    source: &mut S,
    cutter: &mut C,
    buf: &mut [u8],
    written: usize,
) -> (usize, Option<Result<C::End, Error>>)
where
    C::End: Drop,
    requires within { written ≤ length buf.old }
    requires some { 1 ≤ S.Source.ready source.old }
    ensures goes { (p : ℕ) → gathering (C.Cutter.cuts cutter.old (bytes_of (S.Source.stream source.old))) (length buf.old) (front written buf.old) p (S.Source.stream source.old).items (S.Source.stream source.old).tail ≡ resumed result.1 (C.Cutter.cuts cutter.new) (length buf.old) (front result.0 buf.new) p (S.Source.stream source.new).items (S.Source.stream source.old).tail }
    ensures tail { (S.Source.stream source.new).tail ≡ (S.Source.stream source.old).tail }
    ensures fits { result.0 ≤ length buf.old }
    ensures rest { past result.0 buf.new ≡ past result.0 buf.old }
    ensures less { result.1 ≡ None → length (S.Source.stream source.new).items < length (S.Source.stream source.old).items }
    ensures grows { written ≤ result.0 }
{
    let room = buf.len() - written;
    let run = source.show();
    let (n, ending) = fit(cutter.scan(run), run.len(), room);
    let end = written + n;
    buf[written..end].copy_from_slice(&run[0..n]);
    source.take(n);
    (end, ending)
}

// Gathers a piece into `buf` behind its first `at` bytes: how many bytes the buffer then holds, and how it ended.
pub fn gather<S: Source, C: Cutter + Drop>(
    source: &mut S,
    mut cutter: C,
    buf: &mut [u8],
    at: usize,
    patience: u32,
) -> (usize, Result<C::End, Error>)
where
    C::End: Drop,
    ensures all { gathering (C.Cutter.cuts cutter (bytes_of (S.Source.stream source.old))) (length buf.old) (front at buf.old) patience (S.Source.stream source.old).items (S.Source.stream source.old).tail ≡ gathered (front result.0 buf.new) (S.Source.stream source.new).items result.1 }
    ensures tail { (S.Source.stream source.new).tail ≡ (S.Source.stream source.old).tail }
    ensures fits { result.0 ≤ length buf.old }
    ensures rest { past result.0 buf.new ≡ past result.0 buf.old }
    ensures grows { at ≤ length buf.old → at ≤ result.0 }
{
    let mut written = at.min(buf.len());
    let mut left = patience;
    loop {
        match source.look() {
            Look::Wait => {
                let Some(fewer) = left.checked_sub(1) else {
                    return (written, Err(Error::Patience));
                };
                left = fewer;
            }
            Look::End => {
                let end = cutter.at_end(&buf[0..written]);
                return (written, Ok(end));
            }
            Look::Fault(fault) => return (written, Err(fault.into())),
            Look::Ready => {
                let (end, ending) = copy_run(source, &mut cutter, buf, written);
                written = end;
                if let Some(ending) = ending {
                    return (written, ending);
                }
            }
        }
    }
}

// Passes waits until there is a byte, which stays, or the end: what there is, and the patience left, which a refusal leaves too.
pub fn await_byte<S: Source>(source: &mut S, patience: u32) -> (Result<Option<u8>, Error>, u32)
    ensures all { await patience (S.Source.stream source.old).items (S.Source.stream source.old).tail ≡ awaited result.0 (S.Source.stream source.new).items result.1 }
    ensures tail { (S.Source.stream source.new).tail ≡ (S.Source.stream source.old).tail }
    ensures some { is_byte result.0 ≡ true → 1 ≤ S.Source.ready source.new }
{
    let mut left = patience;
    loop {
        match source.look() {
            Look::Wait => {
                let Some(fewer) = left.checked_sub(1) else {
                    return (Err(Error::Patience), 0);
                };
                left = fewer;
            }
            Look::End => return (Ok(None), left),
            Look::Fault(fault) => return (Err(fault.into()), left),
            Look::Ready => {
                let run = source.show();
                return (Ok(Some(run[0])), left);
            }
        }
    }
}

// Passes waits until there is a byte, which names what `<!` begins and stays: its scanner, and the patience left. A
// rule of the project: a loop of its own, which yields the kind by `break` or refuses.
pub fn bang_type<S: Source>(source: &mut S, patience: u32) -> Result<(BangType, u32), Error>
    ensures value { result ≡ named (await patience (S.Source.stream source.old).items (S.Source.stream source.old).tail) }
    ensures left { (S.Source.stream source.new).items ≡ (await patience (S.Source.stream source.old).items (S.Source.stream source.old).tail).left }
    ensures tail { (S.Source.stream source.new).tail ≡ (S.Source.stream source.old).tail }
{
    let mut left = patience;
    let bang = loop {
        match source.look() {
            Look::Wait => left = left.checked_sub(1).ok_or(Error::Patience)?,
            Look::End => return Err(SyntaxError::InvalidBangMarkup.into()),
            Look::Fault(fault) => return Err(fault.into()),
            Look::Ready => {
                let run = source.show();
                break BangType::new(run[0]).ok_or(SyntaxError::InvalidBangMarkup)?;
            }
        }
    };
    Ok((bang, left))
}
