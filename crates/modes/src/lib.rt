//! The mode request: the first mode of a message that a table can carry.

#![tactic(auto)]

mod available;
mod element;
mod laws;
mod request;

pub use available::Available;
pub use element::Element;
pub use laws::one_mode;
pub use request::request_mode;
