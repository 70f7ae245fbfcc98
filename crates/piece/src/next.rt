ghost use Rattle.std.specs.Prelude.{◌≡◌, length, Ok, Err};
ghost use Rattle.model.specs.Call.{outcome, admitted};
ghost use Rattle.model.specs.declared.ending.Pending.TheVariants as pending;
ghost use Rattle.piece.specs.Calls.{PieceContinues};
ghost use Rattle.piece.specs.Next.{of_text, of_ref, of_refused, Spends, Opened, by_byte, at_markup, nexts, next_told};

use super::kinds::{Kind, Piece};
use errors::Error;
use model::{Pending, ReadRef, ReadText, Refusal, Refused, Told};
use parser::{ElementParser, PiParser, SyntaxError};
use reader::{OpeningToken, Reader};
use source::Source;

// A text goes straight back; an empty one at the end is the end. Markup and Ref do not come here.
fn text_piece(answer: Result<ReadText, Refusal>) -> Result<Option<Piece>, Refusal>
    ensures { result ≡ of_text answer }
{
    match answer? {
        ReadText::UpToEof(0) | ReadText::Markup | ReadText::Ref => Ok(None),
        ReadText::UpToMarkup(written) | ReadText::UpToRef(written) | ReadText::UpToEof(written) =>
            Ok(Some(Piece {
                kind: Kind::Text,
                written,
            })),
    }
}

fn ref_piece(answer: Result<ReadRef, Refusal>) -> Result<Option<Piece>, Refusal>
    ensures { result ≡ of_ref answer }
{
    let (kind, written) = match answer? {
        ReadRef::Ref(written) => (Kind::Ref, written),
        ReadRef::UpToRef(written) | ReadRef::UpToMarkup(written) | ReadRef::UpToEof(written) => (
            Kind::Loose,
            written,
        ),
    };
    Ok(Some(Piece { kind, written }))
}

// The refusal of a piece whose `<` peek_one took. Behind peek_one no call hands its token back.
fn spent(refused: Refused<OpeningToken>) -> Refusal
    requires { Spends refused }
    ensures { Err result ≡ of_refused refused }
{
    match refused {
        Refused::Spent(refusal) => Refusal {
            taken: refusal.taken + 1,
            ..refusal
        },
        Refused::Kept(_, _) => unreachable!(),
    }
}

// The piece that begins with `<` and the byte behind it. Here and below no struct holds the reader and the buffer: it would need
// clauses that it keeps each `&mut`.
fn opened_piece<S: Source>(
    reader: &mut Reader<S>,
    b: u8,
    token: OpeningToken,
    buf: &mut [u8],
    patience: u32,
) -> Result<Option<Piece>, Refusal>
    requires { Opened reader.old (length buf.old) b }
    ensures { outcome result reader.new buf.new ≡ by_byte buf.old patience b token reader.old }
{
    let (kind, written) = match b {
        b'!' => {
            let answer = reader.read_bang_element(token, buf, patience);
            let (bang, written) = answer.map_err(spent)?;
            (Kind::from(bang), written)
        }
        b'?' => {
            let answer = reader.read_with(token, PiParser::default(), buf, patience);
            (Kind::Pi, answer.map_err(spent)?)
        }
        _ => {
            let answer = reader.read_with(token, ElementParser::default(), buf, patience);
            (Kind::Tag, answer.map_err(spent)?)
        }
    };
    Ok(Some(Piece { kind, written }))
}

// The piece that begins with a `<`.
fn markup_piece<S: Source>(
    reader: &mut Reader<S>,
    buf: &mut [u8],
    patience: u32,
) -> Result<Option<Piece>, Refusal>
    requires { Ok tt ≡ admitted reader.old.position (length buf.old) pending.Nothing reader.old.opening 2 }
    ensures { outcome result reader.new buf.new ≡ at_markup buf.old patience reader.old }
{
    match reader.peek_one(patience)? {
        Some((b, token)) => opened_piece(reader, b, token, buf, patience),
        None => Err(Refusal::taken_opening(SyntaxError::UnclosedTag.into())),
    }
}

fn next_piece_inner<S: Source>(
    reader: &mut Reader<S>,
    buf: &mut [u8],
    patience: u32,
) -> Result<Option<Piece>, Refusal>
    ensures { outcome result reader.new buf.new ≡ nexts reader.old buf.old patience }
{
    reader
        .admit(buf.len(), Pending::Nothing, 2)
        .map_err(Refusal::untouched)?;
    let answer = reader.read_text(buf, patience);
    let Ok(stop @ (ReadText::Markup | ReadText::Ref)) = answer else {
        return text_piece(answer);
    };
    match stop {
        ReadText::Ref => ref_piece(reader.read_ref(buf, patience)),
        _ => markup_piece(reader, buf, patience),
    }
}

// The next piece of the report, at the buffer's front; none at the end.
pub fn next_piece<S: Source>(
    reader: &mut Reader<S>,
    buf: &mut [u8],
    patience: u32,
) -> Result<Option<Piece>, Refusal>
    ensures does { outcome result reader.new buf.new ≡ nexts reader.old buf.old patience }
    ensures report { PieceContinues reader.old (outcome result reader.new buf.new) }
{
    next_piece_inner(reader, buf, patience)
}

// What an answer of next_piece tells: its number, the bytes written, and the bytes taken by all of its calls.
pub fn next_told(answer: &Result<Option<Piece>, Refusal>) -> Told
    ensures { result ≡ next_told answer.now }
{
    match answer {
        Ok(piece) => {
            let written = piece.map_or(0, |piece| piece.written);
            Told {
                number: 0,
                written,
                taken: written,
            }
        }
        Err(refusal) => refusal.told(),
    }
}
