// Lists the pieces of a report, a line each.
#![tactic(auto)]

mod line;
mod list;

pub use line::Line;
pub use list::{list_pieces, list_report};
