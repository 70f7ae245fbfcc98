ghost use Rattle.std.specs.Prelude.{ℕ, List, []};
ghost use Rattle.parser.specs.Scan.{Verdict, Due, Prefix, Fed};

use crate::errors::SyntaxError;

// Finds the end of a construct that is given in runs of bytes.
pub trait Parser {
    // What the scanner means: its verdict on every run of bytes.
    ghost scan: { Self → List ℕ → Verdict };

    // The place of the byte that ends the construct, or none: then the scanner goes on with the next run.
    fn feed(&mut self, bytes: &[u8]) -> Option<usize>
        ensures { Fed (scan self.old) (scan self.new) bytes.now result };

    // The fault if the input ends here, where `content` is the piece from its `<`.
    fn eof_error(self, content: &[u8]) -> SyntaxError
        ensures { Due (scan self []) content.now result };

    // A stop lies within the run, and no byte after it matters.
    ghost prefix: { (s : Self) → Prefix (scan s) };
}
