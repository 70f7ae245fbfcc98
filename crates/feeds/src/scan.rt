// A scanner that is fed run by run.
ghost use Rattle.std.specs.Prelude.{◌≡◌, ◌++◌, IfOk, vec_items};
ghost use Rattle.std.specs.List.{flat_map};
ghost use Rattle.feeds.specs.Answers.{places_of, fault_of, meaning_of, opening_of, content_of};
ghost use Rattle.feeds.specs.Cases.{meant_runs};

use super::case::Scanner;
use parser::{Parser, SyntaxError};
use std::alloc::{AllocError, Global};

#[derive(Drop)]
pub struct Answers {
    // what each feed answered, up to and with the stop
    pub places: Vec<Option<usize>>,
    // the fault if the input ends behind the runs; none after a stop
    pub fault: Option<SyntaxError>,
}

// Feeds the runs one after another, up to the one with the stop. `content` is the piece from its `<`. It is not `feed_runs`, which
// tells nothing where there is no run.
fn feed_all<P: Parser + Drop>(
    heap: Global,
    mut parser: P,
    runs: &[Vec<u8>],
    content: &[u8],
) -> Result<Answers, AllocError>
    ensures places { IfOk result (λ a. a.places.items ≡ places_of (P.Parser.scan parser) (meant_runs runs.now)) }
    ensures fault { IfOk result (λ a. a.fault ≡ fault_of (P.Parser.scan parser) content.now (meant_runs runs.now)) }
{
    let mut places = Vec::new(heap);
    for run in runs {
        match parser.feed(run.as_slice()) {
            Some(place) => {
                places.push(Some(place))?;
                return Ok(Answers {
                    places,
                    fault: None,
                });
            }
            None => places.push(None)?,
        }
    }
    Ok(Answers {
        places,
        fault: Some(parser.eof_error(content)),
    })
}

// An opening with the runs behind it.
fn joined_runs(heap: Global, opening: &[u8], runs: &[Vec<u8>]) -> Result<Vec<u8>, AllocError>
    ensures { IfOk result (λ v. v.items ≡ opening.now ++ flat_map vec_items runs.now) }
{
    let mut bytes = Vec::new(heap);
    bytes.extend_from_slice(opening)?;
    for run in runs {
        bytes.extend_from_slice(run.as_slice())?;
    }
    Ok(bytes)
}

// What stands before the bytes that a scanner is fed.
fn opening(scanner: Scanner) -> &'static [u8]
    ensures { result.now ≡ opening_of scanner }
{
    match scanner {
        Scanner::Elem(_) | Scanner::Pi(_) | Scanner::Comment(_) => b"<",
        Scanner::Dtd(_) | Scanner::Bang(_) => b"<!",
    }
}

// What a scanner answers to runs.
pub fn feed_scanner(heap: Global, scanner: Scanner, runs: &[Vec<u8>]) -> Result<Answers, AllocError>
    ensures places { IfOk result (λ a. a.places.items ≡ places_of (meaning_of scanner) (meant_runs runs.now)) }
    ensures fault { IfOk result (λ a. a.fault ≡ fault_of (meaning_of scanner) (content_of scanner runs.now) (meant_runs runs.now)) }
{
    let content = joined_runs(heap, opening(scanner), runs)?;
    // `Parser` for the enum would have these arms in each of its two methods
    match scanner {
        Scanner::Elem(parser) => feed_all(heap, parser, runs, content.as_slice()),
        Scanner::Pi(parser) => feed_all(heap, parser, runs, content.as_slice()),
        Scanner::Comment(parser) => feed_all(heap, parser, runs, content.as_slice()),
        Scanner::Dtd(parser) => feed_all(heap, parser, runs, content.as_slice()),
        Scanner::Bang(parser) => feed_all(heap, parser, runs, content.as_slice()),
    }
}
