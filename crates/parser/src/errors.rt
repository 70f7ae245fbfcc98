ghost use Rattle.std.specs.Prelude.{◌≡◌};
ghost use Rattle.parser.specs.Faults.{number};

use std::error::Error;
use std::fmt;

// Why a construct has no end, or begins as none does.
#[derive(Clone, Copy, Debug, PartialEq, Eq)]
pub enum SyntaxError {
    InvalidBangMarkup = 9,
    UnclosedPI = 11,
    UnclosedXmlDecl = 12,
    UnclosedComment = 13,
    UnclosedDoctype = 14,
    UnclosedCData = 15,
    UnclosedTag = 16,
    UnclosedSingleQuotedAttributeValue = 17,
    UnclosedDoubleQuotedAttributeValue = 18,
}

impl SyntaxError {
    // The number under which the fault is reported.
    pub fn number(self) -> u8
        ensures { result ≡ number self }
    {
        self as u8
    }
}

impl fmt::Display for SyntaxError {
    fn fmt<W: fmt::Write>(&self, f: &mut fmt::Formatter<W>) -> fmt::Result {
        f.write_str(match self {
            Self::InvalidBangMarkup => {
                "after `<!` only a comment, a CDATA section or a DOCTYPE can follow"
            }
            Self::UnclosedPI => "the input ends inside a processing instruction, before its `?>`",
            Self::UnclosedXmlDecl => "the input ends inside the XML declaration, before its `?>`",
            Self::UnclosedComment => "the input ends inside a comment, before its `-->`",
            Self::UnclosedDoctype => "the input ends inside a DOCTYPE, before its `>`",
            Self::UnclosedCData => "the input ends inside a CDATA section, before its `]]>`",
            Self::UnclosedTag => "the input ends inside a tag, before its `>`",
            Self::UnclosedSingleQuotedAttributeValue => {
                "the input ends inside an attribute's value, before its closing `'`"
            }
            Self::UnclosedDoubleQuotedAttributeValue => {
                "the input ends inside an attribute's value, before its closing `\"`"
            }
        })
    }
}

impl Error for SyntaxError {}
