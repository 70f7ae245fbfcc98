// What the reader's calls mean, on plain values: their answers, the state they change, and what holds over any order of them.
#![tactic(auto)]

mod answer;
mod ending;
mod told;

pub use answer::{Answer, BangKind, ReadRef, ReadText, Refusal, Refused, Told};
pub use ending::{Pending, RefEnd, TextEnd};
pub use errors::Error;
