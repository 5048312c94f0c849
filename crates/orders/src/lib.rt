//! The bench's own records, which open and close a channel: what they say, and whether they are in range.

#![tactic(auto)]

mod read;

pub use read::{channel_of, close_in_range, open_proposal};
