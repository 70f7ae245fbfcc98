// One call on a reader, whichever it is, and the same call on two readers side by side.
#![tactic(auto)]

mod call;
mod pair;

pub use call::{Call, perform};
pub use pair::both;
