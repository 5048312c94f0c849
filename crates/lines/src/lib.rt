//! The lines that the bench prints, one for each piece of its input.

#![tactic(auto)]

#[cfg(test)]
mod examples;
mod line;
mod push;
mod show;

pub use line::Line;
pub use push::push_line;
