// Scanners that find the end of an XML construct in runs of bytes.
#![tactic(auto)]

pub mod bytes;
pub mod cdata;
pub mod comment;
pub mod doubled;
pub mod element;
pub mod errors;
pub mod parser;
pub mod pi;
pub mod runs;

pub use bytes::{ByteParser, feed_bytes, feed_machine};
pub use cdata::CDataParser;
pub use comment::CommentParser;
pub use doubled::DoubledParser;
pub use element::ElementParser;
pub use errors::SyntaxError;
pub use parser::Parser;
pub use pi::PiParser;
pub use runs::{feed_nothing, feed_runs};
