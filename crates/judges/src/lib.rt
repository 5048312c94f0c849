//! Judges: which capabilities are lawful, and which capability covers which proposal.

#![tactic(auto)]

mod judge;
mod kind;
mod laws;
mod own_kind;
mod standard;
mod words;

pub use judge::Judge;
pub use kind::{Kind, UnknownKind};
pub use laws::{own_kind_rules_stand, standard_rules_stand};
pub use own_kind::OwnKind;
pub use standard::StandardJudge;
pub use words::{Capability, Proposal};
