ghost use Rattle.std.specs.Prelude.{◌≡◌};
ghost use Rattle.bang.specs.Dtd.{dtd, dtd_step, held_none, undecided, kind_of, dtd_due};
ghost use Rattle.bang.specs.Examples.{Examples};
ghost use Rattle.bang.specs.declared.dtd.DtdParser.TheVariants.{Before};
ghost use Rattle.parser.specs.Machines;

use parser::{
    ByteParser, CommentParser, ElementParser, Parser, PiParser, SyntaxError, feed_machine,
};

// The bytes after `<` of a markup whose kind is not known yet: the first `len` of `bytes`. A scanner has no heap and is copied,
// so they stand in an array with their number.
#[derive(Clone, Copy, Debug, PartialEq, Eq)]
pub struct Held {
    bytes: [u8; 9],
    len: usize,
}

impl Held {
    fn none() -> Held
        ensures { result ≡ held_none }
    {
        Held {
            bytes: [0; 9],
            len: 0,
        }
    }

    // Adds a byte, and says what the markup then is. In the declaration of an entity, an attribute list or a notation a `>` in
    // quotes ends nothing; in any other, quotes do not count. A keyword has nine bytes at most, so a ninth byte decides.
    fn decide(self, b: u8) -> DtdParser
        ensures { result ≡ undecided self b }
    {
        // no more than eight are held
        if self.len >= 9 {
            return DtdParser::Plain;
        }
        let mut bytes = self.bytes;
        let len = self.len + 1;
        bytes[self.len] = b;
        match kind(&bytes[..len]) {
            Some(kind) => kind,
            None if b == b'>' => DtdParser::Inside,
            None if len == 9 => DtdParser::Plain,
            None => DtdParser::Undecided(Held { bytes, len }),
        }
    }
}

// The markup that these bytes begin, where they say it.
fn kind(held: &[u8]) -> Option<DtdParser>
    ensures { result ≡ kind_of held.now }
{
    match held {
        b"?" => Some(DtdParser::InPi(PiParser::default())),
        b"!--" => Some(DtdParser::InComment(CommentParser::default())),
        b"!ELEMENT" => Some(DtdParser::Plain),
        b"!ENTITY" | b"!ATTLIST" | b"!NOTATION" => {
            Some(DtdParser::InQuoteSensitive(ElementParser::default()))
        }
        _ => None,
    }
}

// Finds the `>` that ends a document type declaration, fed from the byte after `<!`: the first one outside the literals before
// the internal subset, and outside that subset, which a `]` between its markup ends.
#[derive(Clone, Copy, Debug, PartialEq, Eq)]
pub enum DtdParser {
    // before the `[` of the internal subset
    Before,
    // there, in a literal that this quote opened and ends
    Literal(u8),
    // in the internal subset, between markup
    Inside,
    // in markup whose kind is not known yet
    Undecided(Held),
    // in markup that ends at the next `>`
    Plain,
    // in an instruction; the `?` of its `<?` is not fed to the scanner
    InPi(PiParser),
    // in a comment, after its `<!--`
    InComment(CommentParser),
    // in markup that ends at the next `>` outside quotes
    InQuoteSensitive(ElementParser),
    // after the `]` of the internal subset
    After,
}

impl ByteParser for DtdParser {
    ghost next = { dtd_step };

    fn step(&mut self, b: u8) -> bool {
        match self {
            Self::Before => match b {
                b'>' => return true,
                b'[' => *self = Self::Inside,
                b'\'' | b'"' => *self = Self::Literal(b),
                _ => {}
            },
            Self::Literal(quote) => {
                if b == *quote {
                    *self = Self::Before;
                }
            }
            Self::Inside => match b {
                b']' => *self = Self::After,
                b'<' => *self = Self::Undecided(Held::none()),
                _ => {}
            },
            Self::Undecided(held) => *self = held.decide(b),
            Self::Plain => {
                if b == b'>' {
                    *self = Self::Inside;
                }
            }
            Self::InPi(pi) => {
                if pi.step(b) {
                    *self = Self::Inside;
                }
            }
            Self::InComment(comment) => {
                if comment.step(b) {
                    *self = Self::Inside;
                }
            }
            Self::InQuoteSensitive(element) => {
                if element.step(b) {
                    *self = Self::Inside;
                }
            }
            Self::After => return b == b'>',
        }
        false
    }
}

impl Default for DtdParser {
    ghost is_default = { λ s. s ≡ Before };

    // The examples are two declarations, each in three runs too.
    fn default() -> DtdParser
        ensures fresh { result ≡ Before }
        ensures examples { Examples (dtd result) }
    {
        DtdParser::Before
    }
}

impl Parser for DtdParser {
    ghost scan = { dtd };

    ghost prefix = { Machines.prefix dtd_step dtd_due };

    fn feed(&mut self, bytes: &[u8]) -> Option<usize> {
        feed_machine(self, bytes)
    }

    fn eof_error(self, _content: &[u8]) -> SyntaxError {
        SyntaxError::UnclosedDoctype
    }
}
