// A case: a scanner in one of its states, and the runs that it is fed.
ghost use Rattle.std.specs.Prelude.{◌≡◌, map};
ghost use Rattle.cases.specs.Read.{Reads};
ghost use Rattle.feeds.specs.Cases.{elem_of, pi_of, comment_of, dtd_of, scanner_of, meant_case, case_in, case_of};

use bang::{BangType, DtdParser};
use cases::{Bad, fields_up_to, list};
use parser::{CommentParser, ElementParser, PiParser};
use std::alloc::Global;

// How many fields a case has.
const FIELDS: usize = 4;

#[derive(Clone, Copy)]
pub enum Scanner {
    Elem(ElementParser),
    Pi(PiParser),
    Comment(CommentParser),
    Dtd(DtdParser),
    Bang(BangType),
}

#[derive(Drop)]
pub struct Case<'a> {
    pub id: &'a [u8],
    pub scanner: Scanner,
    pub runs: Vec<Vec<u8>>,
}

// The scanners in a state. They are types of other crates, so this one can not give them `TryFrom`.
#[tactic(auto, using(cases::proofs::Spelled::spelled))]
fn elem_in(state: &[u8]) -> Option<ElementParser>
    ensures { result ≡ elem_of state.now }
{
    match state {
        b"Outside" => Some(ElementParser::Outside),
        b"SingleQ" => Some(ElementParser::SingleQ),
        b"DoubleQ" => Some(ElementParser::DoubleQ),
        _ => None,
    }
}

fn pi_in(state: &[u8]) -> Option<PiParser>
    ensures { result ≡ pi_of state.now }
{
    match state {
        b"0" => Some(PiParser(false)),
        b"1" => Some(PiParser(true)),
        _ => None,
    }
}

#[tactic(auto, using(cases::proofs::Spelled::spelled))]
fn comment_in(state: &[u8]) -> Option<CommentParser>
    ensures { result ≡ comment_of state.now }
{
    match state {
        b"Seen0" => Some(CommentParser::Seen0),
        b"Seen1" => Some(CommentParser::Seen1),
        b"Seen2" => Some(CommentParser::Seen2),
        _ => None,
    }
}

#[tactic(auto, using(cases::proofs::Spelled::spelled))]
fn dtd_in(state: &[u8]) -> Option<DtdParser>
    ensures { result ≡ dtd_of state.now }
{
    match state {
        b"Before" => Some(DtdParser::default()),
        _ => None,
    }
}

// The scanner of a name, in a state; the last have no state to be given. It is made of two texts, so it has no `TryFrom`.
#[tactic(auto, using(cases::proofs::Spelled::spelled))]
fn scanner_named(name: &[u8], state: &[u8]) -> Option<Scanner>
    ensures { result ≡ scanner_of name.now state.now }
{
    match name {
        b"elem" => Some(Scanner::Elem(elem_in(state)?)),
        b"pi" => Some(Scanner::Pi(pi_in(state)?)),
        b"comment" => Some(Scanner::Comment(comment_in(state)?)),
        b"dtd" => Some(Scanner::Dtd(dtd_in(state)?)),
        b"bang-C" => Some(Scanner::Bang(BangType::new(b'-')?)),
        b"bang-D" => Some(Scanner::Bang(BangType::new(b'D')?)),
        b"bang-d" => Some(Scanner::Bang(BangType::new(b'd')?)),
        b"bang-[" => Some(Scanner::Bang(BangType::new(b'[')?)),
        _ => None,
    }
}

fn case_in<'a>(heap: Global, fields: &[&'a [u8]]) -> Result<Case<'a>, Bad>
    ensures { Reads meant_case result (case_in (map (λ x. x.now) fields.now)) }
{
    let [id, name, state, runs] = fields else {
        return Err(Bad::NoCase);
    };
    Ok(Case {
        id: *id,
        scanner: scanner_named(name, state).ok_or(Bad::NoCase)?,
        runs: list(heap, runs)?,
    })
}

pub fn parse<'a>(heap: Global, line: &'a [u8]) -> Result<Case<'a>, Bad>
    ensures { Reads meant_case result (case_of line.now) }
{
    case_in(heap, fields_up_to(heap, line, FIELDS)?.as_slice())
}
