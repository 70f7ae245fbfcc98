// Cases of calls: making the calls, and writing what they answer.
#![tactic(auto)]

mod line;
mod run;
mod session;

pub use run::replay;
