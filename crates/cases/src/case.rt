// A case: what the reader stands on, and the calls that are made.
ghost use Rattle.std.specs.Prelude.{◌≡◌, map};
ghost use Rattle.cases.specs.Cases.{meant_case, case_in, case_of};
ghost use Rattle.std.specs.Option.{option_map};
ghost use Rattle.cases.specs.Fields.{field_of, fields_of, few, limits_of};
ghost use Rattle.cases.specs.Read.{Reads};
ghost use Rattle.cases.specs.Words.{bound};

use super::bad::Bad;
use super::step::Step;
use super::words::{cut_at, decimal, entries, hex, list};
use std::alloc::Global;

// How many fields a case has at most.
const MOST_FIELDS: usize = 8;

#[derive(Drop)]
pub struct Case<'a> {
    pub id: &'a [u8],
    pub start: u64,
    pub cuts: Vec<u8>,
    pub fault: u8,
    pub bytes: Vec<u8>,
    pub script: Vec<Step>,
    pub narrow: u16,
    pub quota: u32,
}

// The next field, which may not be empty, and what stands behind it.
pub fn field(line: Option<&[u8]>) -> Option<(&[u8], Option<&[u8]>)>
    ensures { option_map (λ f. (f.0.now, option_map (λ x. x.now) f.1)) result ≡ field_of (option_map (λ x. x.now) line.entry) }
{
    let (text, rest) = cut_at(line?, b'\t');
    if text.is_empty() {
        return None;
    }
    Some((text, rest))
}

// The fields of a line, with tabs between them, none of which may be empty.
pub fn fields<'a>(heap: Global, line: &'a [u8]) -> Result<Vec<&'a [u8]>, Bad>
    ensures { Reads (λ v. map (λ x. x.now) v.items) result (fields_of line.now) }
{
    fields_up_to(heap, line, line.len() + 1)
}

// The same, where there are no more than `most`: a line may be of any length, and no more of it is walked, and no more memory taken,
// than tells that it is no case.
pub fn fields_up_to<'a>(heap: Global, line: &'a [u8], most: usize) -> Result<Vec<&'a [u8]>, Bad>
    ensures { Reads (λ v. map (λ x. x.now) v.items) result (bound (fields_of line.now) (few most)) }
{
    let mut fields = Vec::with_capacity(heap, MOST_FIELDS)?;
    let mut left = Some(line);
    while left.is_some() {
        if fields.len() == most {
            return Err(Bad::NoCase);
        }
        let (text, rest) = field(left).ok_or(Bad::NoCase)?;
        fields.push(text)?;
        left = rest;
    }
    Ok(fields)
}

// The width and the quota, which may be left out.
fn limits_in(fields: &[&[u8]]) -> Option<(u16, u32)>
    ensures { result ≡ limits_of (map (λ x. x.now) fields.now) }
{
    match fields {
        [] => Some((u16::MAX, u32::MAX)),
        [narrow] => Some((decimal(narrow, u16::MAX as u64)? as u16, u32::MAX)),
        [narrow, quota] => Some((
            decimal(narrow, u16::MAX as u64)? as u16,
            decimal(quota, u32::MAX as u64)? as u32,
        )),
        _ => None,
    }
}

// Six to eight fields.
fn case_in<'a>(heap: Global, fields: &[&'a [u8]]) -> Result<Case<'a>, Bad>
    ensures { Reads meant_case result (case_in (map (λ x. x.now) fields.now)) }
{
    let [id, start, cuts, fault, bytes, script, limits @ ..] = fields else {
        return Err(Bad::NoCase);
    };
    // the numbers first: where one is no case, no list is read
    let start = decimal(start, u64::MAX).ok_or(Bad::NoCase)?;
    let fault = decimal(fault, u8::MAX as u64).ok_or(Bad::NoCase)? as u8;
    let (narrow, quota) = limits_in(limits).ok_or(Bad::NoCase)?;
    Ok(Case {
        id: *id,
        start,
        cuts: entries(heap, cuts)?,
        fault,
        bytes: hex(heap, bytes)?,
        script: list(heap, script)?,
        narrow,
        quota,
    })
}

pub fn parse<'a>(heap: Global, line: &'a [u8]) -> Result<Case<'a>, Bad>
    ensures { Reads meant_case result (case_of line.now) }
{
    case_in(heap, fields_up_to(heap, line, MOST_FIELDS)?.as_slice())
}
