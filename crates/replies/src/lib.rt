// What a call answered: what that tells, which call follows, and its text.
#![tactic(auto)]

mod reply;

pub use reply::Reply;
