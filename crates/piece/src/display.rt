ghost use Rattle.std.specs.Prelude.{◌≡◌, length};
ghost use Rattle.piece.specs.Shown.{Shows, shown_told, show_told};

use super::kinds::{Kind, Piece};
use errors::Error;

// A piece with its bytes, which are the front of the buffer. A rule of the project: an enum beside `Kind`, each case with its bytes.
#[derive(Clone, Copy)]
pub enum Shown<'a> {
    Text(&'a [u8]),
    Ref(&'a [u8]),
    Loose(&'a [u8]),
    Tag(&'a [u8]),
    Pi(&'a [u8]),
    Comment(&'a [u8]),
    CData(&'a [u8]),
    DocType(&'a [u8]),
}

// The bytes of an accepted piece, from the buffer that it was read into; a piece longer than the buffer is refused.
pub fn show<'a>(piece: Piece, buf: &'a [u8]) -> Result<Shown<'a>, Error>
    ensures shows { Shows piece buf.now result }
    ensures told { shown_told result ≡ show_told piece (length buf.now) }
{
    if piece.written > buf.len() {
        return Err(Error::PieceTooLong);
    }
    let front = &buf[..piece.written];
    Ok(match piece.kind {
        Kind::Text => Shown::Text(front),
        Kind::Ref => Shown::Ref(front),
        Kind::Loose => Shown::Loose(front),
        Kind::Tag => Shown::Tag(front),
        Kind::Pi => Shown::Pi(front),
        Kind::Comment => Shown::Comment(front),
        Kind::CData => Shown::CData(front),
        Kind::DocType => Shown::DocType(front),
    })
}
