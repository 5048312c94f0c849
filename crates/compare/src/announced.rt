//! What was announced: the program's own record of a table, in plain lists.

use bounded::Bounded;
use judges::Capability;

/// An announced entry: the program's own, as all that it decides with.
#[derive(Clone, Copy, Default)]
pub struct AnnouncedEntry {
    pub number: u16,
    pub capability: Capability,
}

/// An announced alternative set: entry numbers.
#[derive(Clone, Copy, Default)]
pub struct AnnouncedSet {
    pub members: Bounded<u16, 4>,
}

/// An announced descriptor, its sets in the order in which they were announced.
#[derive(Clone, Copy, Default)]
pub struct AnnouncedDescriptor {
    pub number: u8,
    pub sets: Bounded<AnnouncedSet, 10>,
}

/// What stands after the messages so far, in no order of numbers.
#[derive(Clone, Copy, Default)]
pub struct Announced {
    pub entries: Bounded<AnnouncedEntry, 8>,
    pub descriptors: Bounded<AnnouncedDescriptor, 4>,
}

impl Announced {
    /// The entry of this number, if one stands.
    pub(crate) fn entry(&self, number: u16) -> Option<AnnouncedEntry> {
        self.entries.iter().find(|e| e.number == number).copied()
    }

    /// The descriptor of this number, if one stands.
    pub(crate) fn descriptor(&self, number: u8) -> Option<AnnouncedDescriptor> {
        self.descriptors
            .iter()
            .find(|d| d.number == number)
            .copied()
    }
}
