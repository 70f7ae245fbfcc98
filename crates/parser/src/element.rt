ghost use Rattle.std.specs.Prelude.{◌≡◌};
ghost use Rattle.parser.specs.Element.{element, element_step, element_due};
ghost use Rattle.parser.specs.First.{StopsAtFirst, ends_tag};
ghost use Rattle.parser.specs.declared.element.ElementParser.TheVariants.{Outside};
ghost use Rattle.parser.specs.Machines;

use crate::bytes::{ByteParser, feed_machine};
use crate::errors::SyntaxError;
use crate::parser::Parser;

// Finds the `>` that ends a tag: the first one outside quotes. Only the quote that opened a value closes it.
#[derive(Clone, Copy, Debug, PartialEq, Eq)]
pub enum ElementParser {
    // in no attribute's value
    Outside,
    // in a value that a `'` opened
    SingleQ,
    // in a value that a `"` opened
    DoubleQ,
}

impl ByteParser for ElementParser {
    ghost next = { element_step };

    fn step(&mut self, b: u8) -> bool {
        *self = match (*self, b) {
            (Self::Outside, b'>') => return true,
            (Self::Outside, b'\'') => Self::SingleQ,
            (Self::Outside, b'"') => Self::DoubleQ,
            (Self::SingleQ, b'\'') | (Self::DoubleQ, b'"') => Self::Outside,
            (state, _) => state,
        };
        false
    }
}

impl Default for ElementParser {
    ghost is_default = { λ s. s ≡ Outside };

    // It stops just at the first `>` with no quote open before it.
    fn default() -> ElementParser
        ensures fresh { result ≡ Outside }
        ensures first { StopsAtFirst (element result) ends_tag }
    {
        ElementParser::Outside
    }
}

impl Parser for ElementParser {
    ghost scan = { element };

    ghost prefix = { Machines.prefix element_step element_due };

    fn feed(&mut self, bytes: &[u8]) -> Option<usize> {
        feed_machine(self, bytes)
    }

    fn eof_error(self, _content: &[u8]) -> SyntaxError {
        match self {
            Self::Outside => SyntaxError::UnclosedTag,
            Self::SingleQ => SyntaxError::UnclosedSingleQuotedAttributeValue,
            Self::DoubleQ => SyntaxError::UnclosedDoubleQuotedAttributeValue,
        }
    }
}
