//! Records of 32 octets, read where they stand in the host's octets, and the two messages made of them.

#![tactic(auto)]

mod check;
mod fields;
mod held;
mod order;
mod read;
mod stage;
mod tag;

pub use check::{check_message, orders_stand};
pub use held::{Cursor, Form, Record, Said};
pub use tag::{Tag, UnknownTag};
