// Cases of a scanner that is fed by itself: reading them, feeding the runs, and writing what it answers.
#![tactic(auto)]

mod case;
mod run;
mod scan;

pub use case::{Case, Scanner, parse};
pub use run::replay_feed;
pub use scan::{Answers, feed_scanner};
