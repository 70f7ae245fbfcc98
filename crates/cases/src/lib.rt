// Cases in text, a line each with tabs between the fields: their parts, and the cases of calls.
#![tactic(auto)]

mod bad;
mod case;
mod line;
mod lines;
mod step;
mod words;

pub use bad::Bad;
pub use case::{Case, field, fields, fields_up_to, parse};
pub use line::{case_line, write_bad};
pub use lines::answer_lines;
pub use step::{Call, LONGEST, Spending, Step};
pub use words::{Word, cut_at, hex, list};
