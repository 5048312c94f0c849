//! Boards of rows and sets: each row seated at a set of its own by augmenting paths, or a group of rows that forbids it.
//! For the crates of this repository alone: its functions ask for boards of the right shape.

#![tactic(auto)]

mod block;
mod laws;
mod masks;
mod placing;
mod seats;

pub use block::Block;
pub use laws::blocks_refute;
pub use masks::{has, mask_at, mask_where, put_mask, with};
pub use placing::place;
