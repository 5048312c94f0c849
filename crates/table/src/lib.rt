//! One terminal's capability table, and what a set message makes of it.

#![tactic(auto)]

mod by_number;
mod defined;
mod held;
mod laws;
mod merge;
mod set;
mod standing;

pub use held::{AlternativeSet, Descriptor, Entry};
pub use laws::{every_table_keeps, one_answer, one_table};
pub use standing::Table;
