//! A session: the channels that one terminal's table must carry, in one direction, over any judge.

#![tactic(auto)]

mod asking;
mod calls;
mod carrying;
mod settling;
mod state;
mod words;

pub use state::Session;
pub use words::{HandedBack, Opened, PendingOpen};
