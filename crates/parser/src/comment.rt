ghost use Rattle.parser.specs.Comment.{comment, comment_due};
ghost use Rattle.parser.specs.Doubled.{doubled_step};
ghost use Rattle.parser.specs.Machines;

use crate::bytes::feed_machine;
use crate::doubled::DoubledParser;
use crate::errors::SyntaxError;
use crate::parser::Parser;

// Finds the `-->` that ends a comment, fed from the byte after `<!--`.
pub type CommentParser = DoubledParser<b'-'>;

impl Parser for CommentParser {
    ghost scan = { comment };

    ghost prefix = { Machines.prefix doubled_step comment_due };

    fn feed(&mut self, bytes: &[u8]) -> Option<usize> {
        feed_machine(self, bytes)
    }

    fn eof_error(self, _content: &[u8]) -> SyntaxError {
        SyntaxError::UnclosedComment
    }
}
