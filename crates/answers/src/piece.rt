ghost use Rattle.std.specs.Prelude.{◌≡◌, ℕ, length, Result};
ghost use Rattle.errors.specs.declared.Error.{Error};
ghost use Rattle.model.specs.Bang.{with_kind};
ghost use Rattle.model.specs.Call.{chain, ref_answer, spending, taking, text_answer, whole, with_answer, with_piece};

use errors::Error;
use model::{BangKind, ReadRef, ReadText, RefEnd, Refusal, Refused, TextEnd};
use parser::SyntaxError;
use utf8::check;

// What ends a piece.
pub trait PieceEnd {
    type Answer;

    ghost answers: { Self → ℕ → Result Self.Answer Error };

    // The answer to a piece of `len` bytes, if it is UTF-8.
    fn answer(self, len: usize) -> Result<Self::Answer, Error>
        ensures { result ≡ answers self len };
}

impl PieceEnd for TextEnd {
    type Answer = ReadText;

    ghost answers = { text_answer };

    fn answer(self, len: usize) -> Result<ReadText, Error> {
        Ok(match (self, len) {
            (TextEnd::Markup, 0) => ReadText::Markup,
            (TextEnd::Markup, _) => ReadText::UpToMarkup(len),
            (TextEnd::Ref, 0) => ReadText::Ref,
            (TextEnd::Ref, _) => ReadText::UpToRef(len),
            (TextEnd::Eof, _) => ReadText::UpToEof(len),
        })
    }
}

impl PieceEnd for RefEnd {
    type Answer = ReadRef;

    ghost answers = { ref_answer };

    fn answer(self, len: usize) -> Result<ReadRef, Error> {
        match self {
            RefEnd::Semicolon => Ok(ReadRef::Ref(len)),
            RefEnd::Markup => Ok(ReadRef::UpToMarkup(len)),
            RefEnd::Ref => Ok(ReadRef::UpToRef(len)),
            RefEnd::Eof => Ok(ReadRef::UpToEof(len)),
            RefEnd::NotRef => Err(Error::FirstByte),
        }
    }
}

// What ends a construct that a scanner reads: its stop, or the fault due at the end of the source.
impl PieceEnd for Result<(), SyntaxError> {
    type Answer = usize;

    ghost answers = { with_answer };

    fn answer(self, len: usize) -> Result<usize, Error> {
        self?;
        Ok(len)
    }
}

// What is answered to a gathering whose bytes are `piece`. They are the buffer's front, lent beside the ending, so no struct holds both.
fn answer<E: PieceEnd + Drop>(piece: &[u8], ending: Result<E, Error>) -> Result<E::Answer, Error>
where
    E::Answer: Drop,
    ensures { result ≡ chain ending (whole E.PieceEnd.answers piece.now) }
{
    let answer = ending?.answer(piece.len())?;
    check(piece)?;
    Ok(answer)
}

// What a call that takes what it writes answers to a gathering whose bytes are `piece`.
pub fn taken_answer<E: PieceEnd + Drop>(
    piece: &[u8],
    ending: Result<E, Error>,
) -> Result<E::Answer, Refusal>
where
    E::Answer: Drop,
    ensures { result ≡ taking (length piece.now) (chain ending (whole E.PieceEnd.answers piece.now)) }
{
    answer(piece, ending).map_err(|error| Refusal::taken_all(error, piece.len()))
}

// What a call that spends a token, whose `<` was taken before, answers to such a gathering.
pub fn spent_answer<E: PieceEnd + Drop, T>(
    piece: &[u8],
    ending: Result<E, Error>,
) -> Result<E::Answer, Refused<T>>
where
    E::Answer: Drop,
    ensures { result ≡ spending (length piece.now) (chain ending (whole E.PieceEnd.answers piece.now)) }
{
    answer(piece, ending).map_err(|error| Refused::Spent(Refusal::taken_behind(error, piece.len())))
}

// What read_bang_element answers to a gathering whose bytes are `piece`.
pub fn bang_answer<T>(
    kind: BangKind,
    piece: &[u8],
    ending: Result<Result<(), SyntaxError>, Error>,
) -> Result<(BangKind, usize), Refused<T>>
    ensures { result ≡ spending (length piece.now) (with_kind kind (chain ending (with_piece piece.now))) }
{
    spent_answer(piece, ending).map(|len| (kind, len))
}
