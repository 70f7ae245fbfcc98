// The check that a run of bytes is UTF-8.
#![tactic(auto)]

ghost use Rattle.std.specs.Prelude.{◌≡◌, ◌++◌, Some, codes, decimal};
ghost use Rattle.utf8.specs.Steps.{need_step, second_step};
ghost use Rattle.utf8.specs.Utf8.{Checks, judged};

use std::error::Error;
use std::fmt;

// Bytes that are not UTF-8.
#[derive(Clone, Copy, Debug, PartialEq, Eq)]
pub struct Utf8Error {
    // the length of their longest front that is
    pub valid_up_to: usize,
}

impl fmt::Display for Utf8Error {
    ghost output = { λ e. Some (codes "not UTF-8 after the first " ++ decimal e.valid_up_to ++ codes " bytes") };

    fn fmt<W: fmt::Write>(&self, f: &mut fmt::Formatter<W>) -> fmt::Result {
        write!(f, "not UTF-8 after the first {} bytes", self.valid_up_to)
    }
}

impl Error for Utf8Error {}

// What a character still needs.
#[derive(Clone, Copy)]
enum Need {
    // a first byte
    Lead,
    // the byte after this first byte
    Second(u8),
    // one or two more bytes
    Tails(u8),
}

// What the second byte of a character leads to, by its first byte.
fn second(lead: u8, b: u8) -> Option<Need>
    ensures { result ≡ second_step lead b }
{
    match lead {
        0xc2..=0xdf if 0x80 <= b && b <= 0xbf => Some(Need::Lead),
        0xe0 if 0xa0 <= b && b <= 0xbf => Some(Need::Tails(1)),
        0xe1..=0xec | 0xee..=0xef if 0x80 <= b && b <= 0xbf => Some(Need::Tails(1)),
        0xed if 0x80 <= b && b <= 0x9f => Some(Need::Tails(1)),
        0xf0 if 0x90 <= b && b <= 0xbf => Some(Need::Tails(2)),
        0xf1..=0xf3 if 0x80 <= b && b <= 0xbf => Some(Need::Tails(2)),
        0xf4 if 0x80 <= b && b <= 0x8f => Some(Need::Tails(2)),
        _ => None,
    }
}

// What a character still needs after one more byte; None where the byte cannot stand there.
fn next(need: Need, b: u8) -> Option<Need>
    ensures { result ≡ need_step need b }
{
    match (need, b) {
        (Need::Lead, 0x00..=0x7f) => Some(Need::Lead),
        (Need::Lead, 0xc2..=0xf4) => Some(Need::Second(b)),
        (Need::Second(lead), b) => second(lead, b),
        (Need::Tails(2), 0x80..=0xbf) => Some(Need::Tails(1)),
        (Need::Tails(_), 0x80..=0xbf) => Some(Need::Lead),
        _ => None,
    }
}

// Whether the bytes are UTF-8, and how far they are where not all of them are.
pub fn check(bytes: &[u8]) -> Result<(), Utf8Error>
    ensures value { result ≡ judged bytes.now }
    ensures meaning { Checks bytes.now result }
{
    let mut valid_up_to = 0;
    let mut need = Need::Lead;
    // a rule of the project: the run's elements, with their index
    for (i, b) in bytes.iter().enumerate() {
        need = next(need, *b).ok_or(Utf8Error { valid_up_to })?;
        if matches!(need, Need::Lead) {
            valid_up_to = i + 1;
        }
    }
    if valid_up_to == bytes.len() {
        Ok(())
    } else {
        Err(Utf8Error { valid_up_to })
    }
}
