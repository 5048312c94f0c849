//! Why a call is refused: the refusals, their numbers, and the first refusal in order.

#![tactic(auto)]

mod refusal;

pub use refusal::Refusal;
