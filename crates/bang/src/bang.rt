ghost use Rattle.std.specs.Prelude.{◌≡◌};
ghost use Rattle.bang.specs.Bang.{bang, bang-prefix, bang_type};

use crate::comment::BangCommentParser;
use crate::dtd::DtdParser;
use parser::{CDataParser, Parser, SyntaxError};

// What begins with `<!`, with its scanner, which is fed from the byte after that.
#[derive(Clone, Copy, Debug, PartialEq, Eq)]
pub enum BangType {
    CData(CDataParser),
    Comment(BangCommentParser),
    DocType(DtdParser),
}

impl BangType {
    // The kind by the byte after `<!`, with a fresh scanner, or none where no construct begins so.
    pub fn new(byte: u8) -> Option<BangType>
        ensures { result ≡ bang_type byte }
    {
        match byte {
            b'[' => Some(Self::CData(CDataParser::default())),
            b'-' => Some(Self::Comment(BangCommentParser::default())),
            b'D' | b'd' => Some(Self::DocType(DtdParser::default())),
            _ => None,
        }
    }
}

// Both methods match on the kind, with no trait object: the kinds are closed, and a scanner is copied and has no heap.
impl Parser for BangType {
    ghost scan = { bang };

    ghost prefix = { bang-prefix };

    fn feed(&mut self, bytes: &[u8]) -> Option<usize> {
        match self {
            Self::CData(parser) => parser.feed(bytes),
            Self::Comment(parser) => parser.feed(bytes),
            Self::DocType(parser) => parser.feed(bytes),
        }
    }

    fn eof_error(self, content: &[u8]) -> SyntaxError {
        match self {
            Self::CData(parser) => parser.eof_error(content),
            Self::Comment(parser) => parser.eof_error(content),
            Self::DocType(parser) => parser.eof_error(content),
        }
    }
}
