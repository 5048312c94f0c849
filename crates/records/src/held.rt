//! A record, a cursor over records, and what a record says.

use bounded::Bounded;
use judges::{Capability, Proposal};

/// One record of a message.
#[derive(Clone, Copy)]
pub struct Record<'a> {
    pub(crate) octets: &'a [u8; 32],
}

/// What is left to read of a message.
#[derive(Clone, Copy)]
pub struct Cursor<'a> {
    pub(crate) rest: &'a [u8],
}

/// What a record says.
#[derive(Clone, Copy)]
pub enum Said {
    Begin(u8),
    Entry(u16, Capability),
    Removed(u16),
    Descriptor(u8),
    Alternatives(Bounded<u16, 15>),
    End,
    Mode,
    Element(Proposal),
    /// A record of another tag.
    Other(u8),
}

/// Which message is meant.
#[derive(Clone, Copy)]
pub enum Form {
    Set,
    Modes,
}
