//! Lists by rising number, and what stands at a number.

#![tactic(auto)]

mod lists;

pub use lists::{ByNumber, find, kept, put, without};
