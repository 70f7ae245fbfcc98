ghost use Rattle.std.specs.Prelude.{◌≡◌, false, codes};
ghost use Rattle.parser.specs.First.{StopsAtFirst, ends_after};
ghost use Rattle.parser.specs.Pi.{pi, pi_step, after_question, pi_due};
ghost use Rattle.parser.specs.Machines;

use crate::bytes::{ByteParser, feed_machine};
use crate::errors::SyntaxError;
use crate::parser::Parser;

// Finds the `?>` that ends a processing instruction: whether the byte before was `?`. A fresh one has no byte before, so the
// `?` of the opening `<?` counts only if it is fed.
#[derive(Clone, Copy, Debug, PartialEq, Eq)]
pub struct PiParser(pub bool);

impl ByteParser for PiParser {
    ghost next = { pi_step };

    fn step(&mut self, b: u8) -> bool {
        if self.0 && b == b'>' {
            return true;
        }
        self.0 = b == b'?';
        false
    }
}

impl Default for PiParser {
    ghost is_default = { λ s. s ≡ after_question false };

    // It stops just at the first `>` right after a `?`.
    fn default() -> PiParser
        ensures fresh { result ≡ after_question false }
        ensures first { StopsAtFirst (pi result) (ends_after (codes "?")) }
    {
        PiParser(false)
    }
}

impl Parser for PiParser {
    ghost scan = { pi };

    ghost prefix = { Machines.prefix pi_step pi_due };

    fn feed(&mut self, bytes: &[u8]) -> Option<usize> {
        feed_machine(self, bytes)
    }

    // An instruction whose target is `xml` is the XML declaration.
    fn eof_error(self, content: &[u8]) -> SyntaxError {
        match content.strip_prefix(b"<?xml") {
            Some([] | [b' ' | b'\r' | b'\n' | b'\t' | b'?', ..]) => SyntaxError::UnclosedXmlDecl,
            _ => SyntaxError::UnclosedPI,
        }
    }
}
