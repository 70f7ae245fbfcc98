ghost use Rattle.std.specs.Prelude.{◌≡◌, ℕ, List, [], map, IfOk, None};
ghost use Rattle.parser.specs.Runs.{told};

use crate::errors::SyntaxError;
use crate::parser::Parser;
use std::alloc::{AllocError, Global};

// Feeds the runs one after another, up to the one with the stop, and gives what the scanner tells of each: the place in the run of
// the byte that ends the construct, or, where no byte does, the fault if the input ends with the run. That is just what it means
// for all bytes so far, wherever they were cut. `content` is the piece from its `<`.
pub fn feed_runs<P: Parser + Copy>(
    heap: Global,
    mut parser: P,
    runs: &[&[u8]],
    content: &[u8],
) -> Result<Vec<Result<usize, SyntaxError>>, AllocError>
    ensures { IfOk result (λ v. v.items ≡ told (P.scan parser) content.now [] (map (λ x. x.now) runs.now)) }
{
    let mut given = Vec::new(heap);
    for run in runs {
        match parser.feed(*run) {
            Some(place) => {
                given.push(Ok(place))?;
                return Ok(given);
            }
            None => given.push(Err(parser.eof_error(content)))?,
        }
    }
    Ok(given)
}

// An empty run has no stop, and changes nothing of what the scanner means.
pub fn feed_nothing<P: Parser>(parser: &mut P) -> Option<usize>
    ensures none { result ≡ None }
    ensures same { (ys : List ℕ) → P.scan parser.new ys ≡ P.scan parser.old ys }
{
    parser.feed(b"")
}
