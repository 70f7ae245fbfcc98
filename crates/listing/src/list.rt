ghost use Rattle.std.specs.Prelude.{◌≡◌, IfOk};
ghost use Rattle.listing.specs.Listed.{line, closing, listed, report_listed};

use super::line::Line;
use model::Refusal;
use piece::{Piece, next_piece};
use reader::Reader;
use source::{Narrow, Quota, Source, Whole};
use std::alloc::{AllocError, Global};

// The line of an answer, by the position before it.
fn line_of(before: u64, answer: Result<Option<Piece>, Refusal>) -> Line
    ensures { result ≡ line before answer }
{
    match answer {
        Ok(Some(piece)) => Line::Piece(piece.kind, before, piece.written),
        Ok(None) => Line::End(before),
        Err(refusal) => Line::Fault(before, refusal.error.number()),
    }
}

// Whether the listing ends with this answer.
fn closes(answer: Result<Option<Piece>, Refusal>) -> bool
    ensures { result ≡ closing answer }
{
    matches!(answer, Ok(None) | Err(_))
}

// The lines of the next pieces, `most` at the most, up to and with the closing line.
pub fn list_pieces<S: Source>(
    heap: Global,
    reader: &mut Reader<S>,
    buf: &mut [u8],
    patience: u32,
    most: usize,
) -> Result<Vec<Line>, AllocError>
    ensures { IfOk result (λ v. v.items ≡ listed most reader.old buf.old patience) }
{
    let mut lines = Vec::new(heap);
    for _ in 0..most {
        let before = reader.position();
        let answer = next_piece(reader, buf, patience);
        lines.push(line_of(before, answer))?;
        if closes(answer) {
            return Ok(lines);
        }
    }
    Ok(lines)
}

// The lines of a report of which no more than `quota` bytes are read, into a buffer of `size` bytes, `width` at a time. The numbers
// are parameters: with list_report's written out here, the proof's search outgrew 4 GiB.
fn list_within(
    heap: Global,
    report: &[u8],
    quota: u32,
    width: u16,
    size: usize,
    most: usize,
) -> Result<Vec<Line>, AllocError>
    ensures { IfOk result (λ v. v.items ≡ report_listed report.now quota size most) }
{
    let mut buf = vec![in heap; 0u8; size]?;
    let source = Quota::new(Narrow::new(Whole::new(report), width), quota);
    let mut reader = Reader::new(source, 0);
    list_pieces(heap, &mut reader, buf.as_mut_slice(), 0, most)
}

// The listing of a whole report: at most 32,768 bytes of it, at most 64 shown at a time. Each piece has a byte at least, so there
// are no more lines than those bytes and the closing one.
pub fn list_report(heap: Global, report: &[u8]) -> Result<Vec<Line>, AllocError>
    ensures { IfOk result (λ v. v.items ≡ report_listed report.now 32768 32768 32769) }
{
    list_within(heap, report, 32_768, 64, 32_768, 32_769)
}
