// Gathers a piece from a source into a buffer, whatever tells where it ends.
#![tactic(auto)]

mod cutter;
mod gathering;

pub use cutter::{Cutter, Reference, Scan, Scanner, Text};
pub use gathering::{await_byte, bang_type, gather};
