// Where pieces end: what read_text, read_ref and read_with have in common.
ghost use Rattle.std.specs.Prelude.{◌≡◌, ℕ, false, List, []};
ghost use Rattle.model.specs.Cut.{Cut, at_end, text_cut, ref_from, scan_cut};
ghost use Rattle.gather.specs.Scanned.{Scanned};

use model::{RefEnd, TextEnd};
use parser::{Parser, SyntaxError};

// Where a piece ends in a run: before the byte at a place, or with it.
#[derive(Clone, Copy, Debug)]
pub enum Scan<E> {
    Before(usize, E),
    Through(usize, E),
}

// Says where a piece ends, fed with one run after another.
pub trait Cutter {
    type End;

    ghost cuts: { Self → List ℕ → Cut Self.End };

    // Where the piece ends in the run, if it does, and what ended it.
    fn scan(&mut self, run: &[u8]) -> Option<Scan<Self::End>>
        ensures { Scanned (cuts self.old) (cuts self.new) run.now result };

    // What ended the piece where the source ends.
    fn at_end(self, content: &[u8]) -> Self::End
        ensures { result ≡ at_end (cuts self []) content.now };
}

// Text: it ends before markup or a reference. Here and below the loop has the index of a byte, since the end that it finds differs
// from byte to byte.
#[derive(Drop)]
pub struct Text;

impl Cutter for Text {
    type End = TextEnd;

    ghost cuts = { λ _. text_cut };

    fn scan(&mut self, run: &[u8]) -> Option<Scan<TextEnd>> {
        for (i, b) in run.iter().enumerate() {
            match *b {
                b'<' => return Some(Scan::Before(i, TextEnd::Markup)),
                b'&' => return Some(Scan::Before(i, TextEnd::Ref)),
                _ => {}
            }
        }
        None
    }

    fn at_end(self, _content: &[u8]) -> TextEnd {
        TextEnd::Eof
    }
}

// A reference, from its `&` on.
#[derive(Drop)]
pub struct Reference {
    // whether the `&` came
    begun: bool,
}

impl Reference {
    pub fn new() -> Reference
        ensures { result.begun ≡ false }
    {
        Reference { begun: false }
    }
}

impl Cutter for Reference {
    type End = RefEnd;

    ghost cuts = { λ c. ref_from c.begun };

    fn scan(&mut self, run: &[u8]) -> Option<Scan<RefEnd>> {
        for (i, b) in run.iter().enumerate() {
            match (self.begun, *b) {
                (false, b'&') => self.begun = true,
                (false, _) => return Some(Scan::Before(i, RefEnd::NotRef)),
                (true, b';') => return Some(Scan::Through(i, RefEnd::Semicolon)),
                (true, b'&') => return Some(Scan::Before(i, RefEnd::Ref)),
                (true, b'<') => return Some(Scan::Before(i, RefEnd::Markup)),
                (true, _) => {}
            }
        }
        None
    }

    fn at_end(self, _content: &[u8]) -> RefEnd {
        RefEnd::Eof
    }
}

// A construct whose end a scanner finds.
#[derive(Drop)]
pub struct Scanner<P>(pub P);

impl<P: Parser + Drop> Cutter for Scanner<P> {
    type End = Result<(), SyntaxError>;

    ghost cuts = { λ c. scan_cut (P.Parser.scan c.0) };

    fn scan(&mut self, run: &[u8]) -> Option<Scan<Result<(), SyntaxError>>> {
        let i = self.0.feed(run)?;
        Some(Scan::Through(i, Ok(())))
    }

    fn at_end(self, content: &[u8]) -> Result<(), SyntaxError> {
        let Scanner(parser) = self;
        Err(parser.eof_error(content))
    }
}
