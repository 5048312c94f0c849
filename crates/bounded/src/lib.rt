//! Lists and sets of bounded size, held in place: no heap.

#![tactic(auto)]

mod held;
mod numbers;
mod ops;

pub use held::{Bounded, NoRoom, NumberSet};
