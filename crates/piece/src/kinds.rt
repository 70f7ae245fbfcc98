ghost use Rattle.std.specs.Prelude.{◌≡◌, Some};
ghost use Rattle.piece.specs.Kinds.{bang_kind, kind_text};

use model::BangKind;
use std::fmt;

// What a piece is.
#[derive(Clone, Copy, Debug, PartialEq, Eq)]
pub enum Kind {
    Text,
    Ref,
    // a reference without its `;`
    Loose,
    Tag,
    Pi,
    Comment,
    CData,
    DocType,
}

impl From<BangKind> for Kind {
    ghost from_gives = { λ bang kind. kind ≡ bang_kind bang };

    fn from(bang: BangKind) -> Kind {
        match bang {
            BangKind::CData => Kind::CData,
            BangKind::Comment => Kind::Comment,
            BangKind::DocType => Kind::DocType,
        }
    }
}

impl fmt::Display for Kind {
    ghost output = { λ k. Some (kind_text k) };

    fn fmt<W: fmt::Write>(&self, f: &mut fmt::Formatter<W>) -> fmt::Result {
        f.write_str(match self {
            Kind::Text => "text",
            Kind::Ref => "ref",
            Kind::Loose => "loose",
            Kind::Tag => "tag",
            Kind::Pi => "pi",
            Kind::Comment => "comment",
            Kind::CData => "cdata",
            Kind::DocType => "doctype",
        })
    }
}

// An accepted piece: its kind, and how many bytes it has at the buffer's front.
#[derive(Clone, Copy, Debug, PartialEq, Eq)]
pub struct Piece {
    pub kind: Kind,
    pub written: usize,
}
