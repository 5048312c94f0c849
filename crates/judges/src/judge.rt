//! A judge: its meaning, and a question for each part of it.

ghost use Rattle.std.specs.Prelude.{◌≡◌, Bool};
ghost use Rattle.judges.specs.declared.words.Capability.{Capability};
ghost use Rattle.judges.specs.declared.words.Proposal.{Proposal};

use crate::words::{Capability, Proposal};

/// A judge's meaning is which capabilities are lawful, and which capability covers which proposal.
/// Each question answers its part of the meaning exactly, and leaves the judge as it is.
pub trait Judge {
    ghost lawful: { Self → Capability → Bool };

    ghost covers: { Self → Capability → Proposal → Bool };

    /// Whether the capability is lawful.
    fn is_lawful(&self, c: &Capability) -> bool
        ensures { result ≡ lawful self.now c.now };

    /// Whether the capability covers the proposal.
    fn does_cover(&self, c: &Capability, p: &Proposal) -> bool
        ensures { result ≡ covers self.now c.now p.now };
}
