//! What stands in a table: entries and descriptors.

use bounded::Bounded;
use judges::Capability;

/// A numbered capability.
#[derive(Clone, Copy, Default)]
pub struct Entry {
    pub number: u16,
    pub capability: Capability,
}

/// Entries by number, any one of which can be used at a time.
#[derive(Clone, Copy, Default)]
pub struct AlternativeSet {
    pub members: Bounded<u16, 15>,
}

/// Alternative sets that can be used at the same time.
#[derive(Clone, Copy, Default)]
pub struct Descriptor {
    pub number: u8,
    pub sets: Bounded<AlternativeSet, 16>,
}
