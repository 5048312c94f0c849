//! Replays an input on a new table: the text that the bench prints of it.

#![tactic(auto)]

mod step;
mod whole;

pub use whole::run;
