// The parts of a case's text.
ghost use Rattle.std.specs.Prelude.{◌≡◌, ℕ, ◌<◌, ◌≤◌, List, length, map, IfSome, vec_items, Option};
ghost use Rattle.std.specs.Option.{option_map};
ghost use Rattle.cases.specs.Read.{Reads};
ghost use Rattle.cases.specs.Words.{before, behind, split, every, none_or, appended_of, decimal_of, hex_byte_of, pairs_of};

use super::bad::Bad;
use std::alloc::Global;

// What stands before the first `separator`, and what behind it, where there is one.
pub fn cut_at(text: &[u8], separator: u8) -> (&[u8], Option<&[u8]>)
    ensures front { result.0.now ≡ before separator text.now }
    ensures rest { option_map (λ x. x.now) result.1 ≡ behind separator text.now }
    ensures shorter { IfSome result.1 (λ rest. length rest.now < length text.now) }
{
    match text.iter().position(|b| *b == separator) {
        Some(i) => (&text[..i], Some(&text[i + 1..])),
        None => (text, None),
    }
}

// A number with one more digit, where that is a digit and the number is no more than `most`.
fn appended(number: u64, digit: u8, most: u64) -> Option<u64>
    ensures { result ≡ appended_of most number digit }
{
    let digit = char::from(digit).to_digit(10)?;
    let longer = number.checked_mul(10)?.checked_add(u64::from(digit))?;
    (longer <= most).then_some(longer)
}

// A number in decimal digits, of which there is at least one, where it is no more than `most`. The digits are walked once: as a
// text, which `from_str_radix` wants, they would be three times.
pub(crate) fn decimal(digits: &[u8], most: u64) -> Option<u64>
    ensures value { result ≡ decimal_of most digits.now }
    ensures small { IfSome result (λ n. n ≤ most) }
{
    if digits.is_empty() {
        return None;
    }
    let mut number = 0;
    for digit in digits {
        number = appended(number, *digit, most)?;
    }
    Some(number)
}

// The byte of two hexadecimal digits.
fn hex_byte(high: u8, low: u8) -> Option<u8>
    ensures { result ≡ hex_byte_of high low }
{
    let high = char::from(high).to_digit(16)?;
    let low = char::from(low).to_digit(16)?;
    Some((high * 16 + low) as u8)
}

// The bytes that pairs of hexadecimal digits stand for.
fn pairs(heap: Global, text: &[u8]) -> Result<Vec<u8>, Bad>
    ensures { Reads vec_items result (pairs_of text.now) }
{
    let mut bytes = Vec::new(heap);
    let mut digits = text;
    while let [high, low, rest @ ..] = digits {
        bytes.push(hex_byte(*high, *low).ok_or(Bad::NoCase)?)?;
        digits = rest;
    }
    if digits.is_empty() {
        Ok(bytes)
    } else {
        Err(Bad::NoCase)
    }
}

// Pairs of hexadecimal digits, or `-` for none.
pub fn hex(heap: Global, text: &[u8]) -> Result<Vec<u8>, Bad>
    ensures { Reads vec_items result (none_or pairs_of text.now) }
{
    // `entries` has another reading behind `-`: one function for both would need a clause on a closure, longer than these arms
    match text {
        b"-" => Ok(Vec::new(heap)),
        digits => pairs(heap, digits),
    }
}

// What an entry of a list is read as.
pub trait Word: Drop {
    // what a word stands for
    ghost Meant: { Type 0 };

    ghost view: { Self → Meant };

    ghost meaning: { List ℕ → Option Meant };

    fn read(heap: Global, text: &[u8]) -> Result<Self, Bad>
        ensures { Reads view result (meaning text.now) };
}

impl Word for u8 {
    ghost Meant = { ℕ };

    ghost view = { λ n. n };

    ghost meaning = { decimal_of 255 };

    fn read(_heap: Global, text: &[u8]) -> Result<u8, Bad> {
        Ok(decimal(text, u8::MAX as u64).ok_or(Bad::NoCase)? as u8)
    }
}

// A run of bytes.
impl Word for Vec<u8> {
    ghost Meant = { List ℕ };

    ghost view = { λ v. v.items };

    ghost meaning = { none_or pairs_of };

    fn read(heap: Global, text: &[u8]) -> Result<Vec<u8>, Bad> {
        hex(heap, text)
    }
}

// Words with commas between them.
pub fn list<W: Word>(heap: Global, text: &[u8]) -> Result<Vec<W>, Bad>
    ensures { Reads (λ v. map W.view v.items) result (every W.meaning (split 44 text.now)) }
{
    let mut all = Vec::new(heap);
    let mut left = Some(text);
    // a `for` over the split itself gets no well-typed proof in a generic function: tried with a closure, a named test and `next`;
    // one over the parts, collected first, takes many times the memory
    while let Some(words) = left {
        let (word, rest) = cut_at(words, b',');
        all.push(W::read(heap, word)?)?;
        left = rest;
    }
    Ok(all)
}

// Numbers up to 255 with commas between them, or `-` for none.
pub(crate) fn entries(heap: Global, text: &[u8]) -> Result<Vec<u8>, Bad>
    ensures { Reads vec_items result (none_or (λ t. every (decimal_of 255) (split 44 t)) text.now) }
{
    match text {
        b"-" => Ok(Vec::new(heap)),
        numbers => list(heap, numbers),
    }
}
