//! Entries and descriptors stand by their numbers.

use super::held::{Descriptor, Entry};
use keyed::ByNumber;

impl ByNumber for Entry {
    ghost key = { λ e. e.number };

    fn number(&self) -> u16 {
        self.number
    }
}

impl ByNumber for Descriptor {
    ghost key = { λ d. d.number };

    fn number(&self) -> u16 {
        u16::from(self.number)
    }
}
