// Whole pieces of a report: the next one, and its bytes.
#![tactic(auto)]

mod display;
mod kinds;
mod next;

pub use display::{Shown, show};
pub use kinds::{Kind, Piece};
pub use next::{next_piece, next_told};
