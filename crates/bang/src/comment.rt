ghost use Rattle.std.specs.Prelude.{◌≡◌};
ghost use Rattle.parser.specs.First.{StopsAtFirst};
ghost use Rattle.bang.specs.Comment.{bang_comment, bang_comment_step, ends_bang_comment, bang_comment_due};
ghost use Rattle.bang.specs.declared.comment.BangCommentParser.TheVariants.{Opening0};
ghost use Rattle.parser.specs.Machines;

use parser::{ByteParser, CommentParser, Parser, SyntaxError, feed_machine};

// Finds the `-->` that ends a comment, fed from the byte after `<!`. The dashes of the opening are none of those that end
// the comment, so `<!-->` and `<!--->` are still open.
#[derive(Clone, Copy, Debug, PartialEq, Eq)]
pub enum BangCommentParser {
    // how many dashes of the opening were fed
    Opening0,
    Opening1,
    // after the opening
    Text(CommentParser),
}

impl ByteParser for BangCommentParser {
    ghost next = { bang_comment_step };

    fn step(&mut self, b: u8) -> bool {
        match self {
            Self::Opening0 => *self = Self::Opening1,
            Self::Opening1 => *self = Self::Text(CommentParser::default()),
            Self::Text(comment) => return comment.step(b),
        }
        false
    }
}

impl Default for BangCommentParser {
    ghost is_default = { λ s. s ≡ Opening0 };

    // It stops just at the first `>` right after `--`, at place 4 or later.
    fn default() -> BangCommentParser
        ensures fresh { result ≡ Opening0 }
        ensures first { StopsAtFirst (bang_comment result) ends_bang_comment }
    {
        BangCommentParser::Opening0
    }
}

impl Parser for BangCommentParser {
    ghost scan = { bang_comment };

    ghost prefix = { Machines.prefix bang_comment_step bang_comment_due };

    fn feed(&mut self, bytes: &[u8]) -> Option<usize> {
        feed_machine(self, bytes)
    }

    fn eof_error(self, _content: &[u8]) -> SyntaxError {
        SyntaxError::UnclosedComment
    }
}
