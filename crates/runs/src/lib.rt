//! The law over runs of a session: what holds after any sequence of calls, over any judge.

#![tactic(auto)]

mod laws;

pub use laws::{law_stands, mode_unavailable, not_available, too_narrow};
