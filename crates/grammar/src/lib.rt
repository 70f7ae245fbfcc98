// That the scanners of `parser` find the ends that the grammar of XML 1.0 gives to its constructs. Each function gives the fresh
// scanner, or what it tells, and its contract is the theorem.
#![tactic(auto)]

ghost use Rattle.std.specs.Prelude.{◌≡◌, ℕ, false, List, [], map, IfOk};
ghost use Rattle.bang.specs.Bang.{bang_type};
ghost use Rattle.parser.specs.Comment.{comment as comments};
ghost use Rattle.bang.specs.Dtd.{dtd};
ghost use Rattle.parser.specs.Element.{element};
ghost use Rattle.parser.specs.Pi.{pi, after_question};
ghost use Rattle.parser.specs.Runs.{told};
ghost use Rattle.parser.specs.declared.doubled.DoubledParser.TheVariants.{Seen0};
ghost use Rattle.bang.specs.declared.dtd.DtdParser.TheVariants.{Before};
ghost use Rattle.parser.specs.declared.element.ElementParser.TheVariants.{Outside};
ghost use Rattle.grammar.specs.Cut.{CutAnywhere, CutInComment};
ghost use Rattle.grammar.specs.Doctype.{Doctypedecl, Commented};
ghost use Rattle.grammar.specs.Ends.{Ends, BangEnds};
ghost use Rattle.grammar.specs.Xml.{STag, ETag, EmptyElemTag, PI, Comment, CDSect};

use bang::{BangType, DtdParser};
use parser::{CommentParser, ElementParser, PiParser, SyntaxError, feed_runs};
use std::alloc::{AllocError, Global};

// The `<` of a tag is not fed.
pub fn tag() -> ElementParser
    ensures fresh { result ≡ Outside }
    ensures start { Ends (element result) 1 STag }
    ensures end { Ends (element result) 1 ETag }
    ensures empty { Ends (element result) 1 EmptyElemTag }
{
    ElementParser::default()
}

// A processing instruction is fed from its `?`, or from the byte after it.
pub fn instruction() -> PiParser
    ensures fresh { result ≡ after_question false }
    ensures from_question { Ends (pi result) 1 PI }
    ensures past_question { Ends (pi result) 2 PI }
{
    PiParser::default()
}

// The `<!--` of a comment is not fed.
pub fn comment() -> CommentParser
    ensures fresh { result ≡ Seen0 }
    ensures ends { Ends (comments result) 4 Comment }
{
    CommentParser::default()
}

// The `<!` is not fed, and the byte after it says which scanner to take.
pub fn bang(byte: u8) -> Option<BangType>
    ensures given { result ≡ bang_type byte }
    ensures comment { BangEnds byte result Comment }
    ensures section { BangEnds byte result CDSect }
    ensures doctype { BangEnds byte result Doctypedecl }
{
    BangType::new(byte)
}

// A DOCTYPE that holds a comment, cut between any two bytes, any number of times; and so any DOCTYPE. Its `<!` is not fed.
pub fn doctype(
    heap: Global,
    runs: &[&[u8]],
    content: &[u8],
) -> Result<Vec<Result<usize, SyntaxError>>, AllocError>
    ensures given { IfOk result (λ v. v.items ≡ told (dtd Before) content.now [] (map (λ x. x.now) runs.now)) }
    ensures anywhere { IfOk result (λ v. CutAnywhere Doctypedecl (map (λ x. x.now) runs.now) v.items) }
    ensures commented { IfOk result (λ v. CutAnywhere Commented (map (λ x. x.now) runs.now) v.items) }
    ensures in_comment { IfOk result (λ v. CutInComment (map (λ x. x.now) runs.now) v.items) }
    ensures holds { (text : List ℕ) → Commented text → Doctypedecl text }
{
    feed_runs(heap, DtdParser::default(), runs, content)
}
