// Scanners of what begins with `<!`: comments, CDATA sections and document type declarations.
#![tactic(auto)]

pub mod bang;
pub mod comment;
pub mod dtd;

pub use bang::BangType;
pub use comment::BangCommentParser;
pub use dtd::{DtdParser, Held};
pub use parser::{CDataParser, cdata};
