// Reads pieces of XML from a source, one call a piece.
#![tactic(auto)]

mod reader;
mod token;

pub use answers::admit;
pub use reader::Reader;
pub use token::{OpeningToken, Token};
