//! The channels that a session holds, by rising number, and what an event does to one.

#![tactic(auto)]

mod held;
mod list;
mod row;
mod words;

pub use held::Channels;
pub use words::{Channel, Event, State};
