//! Cuts the input octets of the bench into its pieces: messages, bad records and a short rest.

#![tactic(auto)]

mod front;
mod piece;

pub use front::{Pieces, cut, one_cutting};
pub use piece::Piece;
