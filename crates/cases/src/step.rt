// An entry of a script: the calls that it makes.
ghost use Rattle.std.specs.Prelude.{◌≡◌, Some};
ghost use Rattle.std.specs.Option.{option_map};
ghost use Rattle.cases.specs.declared.step.Step.{Step};
ghost use Rattle.cases.specs.Steps.{look_up, names, call_text, length_of, numbers_of, step_of};

use super::bad::Bad;
use super::words::{Word, cut_at, decimal};
use std::alloc::Global;
use std::fmt;

// The longest buffer that a call may be given, one more than a call takes.
pub const LONGEST: usize = 16_777_217;

const DEFAULT_BUFFER: usize = 65536;

// A call that is made with a token.
#[derive(Clone, Copy)]
pub enum Spending {
    Elem,
    Pi,
    Comment,
    Bang,
    Abandon,
}

#[derive(Clone, Copy)]
pub enum Call {
    Text,
    Ref,
    Peek,
    Next,
    Spend(Spending),
}

impl fmt::Display for Call {
    ghost output = { λ c. Some (call_text c) };

    fn fmt<W: fmt::Write>(&self, f: &mut fmt::Formatter<W>) -> fmt::Result {
        f.write_str(match self {
            Call::Text => "text",
            Call::Ref => "ref",
            Call::Peek => "peek",
            Call::Next => "next",
            Call::Spend(Spending::Elem) => "elem",
            Call::Spend(Spending::Pi) => "pi",
            Call::Spend(Spending::Comment) => "comment",
            Call::Spend(Spending::Bang) => "bang",
            Call::Spend(Spending::Abandon) => "abandon",
        })
    }
}

// One entry of a script.
#[derive(Clone, Copy)]
pub struct Step {
    // the call, or the first of many
    pub call: Call,
    // whether each answer leads to a further call; an enum of the ways to go on would only be asked for this again
    pub goes_on: bool,
    pub buffer: usize,
    pub patience: u32,
}

// The call of a name, and whether it goes on: two values, so that neither has a `TryFrom`.
#[tactic(auto, using(crate::proofs::Spelled::spelled))]
fn named(name: &[u8]) -> Option<(Call, bool)>
    ensures { result ≡ look_up names name.now }
{
    match name {
        b"pieces" => Some((Call::Text, true)),
        b"nexts" => Some((Call::Next, true)),
        b"text" => Some((Call::Text, false)),
        b"ref" => Some((Call::Ref, false)),
        b"peek" => Some((Call::Peek, false)),
        b"next" => Some((Call::Next, false)),
        b"elem" => Some((Call::Spend(Spending::Elem), false)),
        b"pi" => Some((Call::Spend(Spending::Pi), false)),
        b"comment" => Some((Call::Spend(Spending::Comment), false)),
        b"bang" => Some((Call::Spend(Spending::Bang), false)),
        b"abandon" => Some((Call::Spend(Spending::Abandon), false)),
        _ => None,
    }
}

// A buffer's length, at most the longest; the usual one where there is no text.
fn buffer_length(digits: &[u8]) -> Option<usize>
    ensures { result ≡ length_of digits.now }
{
    if digits.is_empty() {
        return Some(DEFAULT_BUFFER);
    }
    Some(decimal(digits, LONGEST as u64)? as usize)
}

// The length of the buffer and the patience, which may be left out.
fn numbers(text: Option<&[u8]>) -> Option<(usize, u32)>
    ensures { result ≡ numbers_of (option_map (λ x. x.now) text.entry) }
{
    let Some(text) = text else {
        return Some((DEFAULT_BUFFER, u32::MAX));
    };
    let (length, patience) = cut_at(text, b':');
    let length = buffer_length(length)?;
    match patience {
        Some(digits) => Some((length, decimal(digits, u32::MAX as u64)? as u32)),
        None => Some((length, u32::MAX)),
    }
}

impl Word for Step {
    ghost Meant = { Step };

    ghost view = { λ s. s };

    ghost meaning = { step_of };

    fn read(_heap: Global, text: &[u8]) -> Result<Step, Bad> {
        let (name, behind) = cut_at(text, b':');
        let (call, goes_on) = named(name).ok_or(Bad::NoCase)?;
        let (buffer, patience) = numbers(behind).ok_or(Bad::NoCase)?;
        Ok(Step {
            call,
            goes_on,
            buffer,
            patience,
        })
    }
}
