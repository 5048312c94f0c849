//! The search: the smallest descriptor of a table that carries rows, or why none does.

#![tactic(auto)]

mod call;
mod cover;
mod each;
mod fill;
mod found;
mod guard;
mod laws;
mod row;
mod seat;
mod seats;
mod settle;

pub use call::{search, seating, smallest};
pub use found::{Found, NoteRow};
pub use guard::{Guard, ROOM, in_scratch};
pub use laws::block_refutes;
pub use row::Row;
pub use seat::{Seat, Seating};
