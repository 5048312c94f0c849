//! The own-kind judge: one kind of one's own over any other judge.

ghost use Rattle.judges.specs.Tests.{own_lawful, own_covers};

use crate::judge::Judge;
use crate::words::{Capability, Proposal};

/// A judge of the kind `code`, whose p goes up to `ceiling`; every other kind is left to the judge below.
/// Where the code is one that the judge below knows, that judge is never asked about it.
#[derive(Clone, Copy)]
pub struct OwnKind<J> {
    pub code: u8,
    pub ceiling: u32,
    pub below: J,
}

impl<J: Judge> Judge for OwnKind<J> {
    ghost lawful = { λ s c. own_lawful s.code s.ceiling (J.Judge.lawful s.below) c };

    ghost covers = { λ s c w. own_covers s.code s.ceiling (J.Judge.covers s.below) c w };

    fn is_lawful(&self, c: &Capability) -> bool {
        if c.kind == self.code {
            c.p <= self.ceiling
        } else {
            self.below.is_lawful(c)
        }
    }

    fn does_cover(&self, c: &Capability, p: &Proposal) -> bool {
        if c.kind == self.code || p.kind == self.code {
            // the wanted p is no larger, so that it keeps to the ceiling as well
            c.kind == p.kind && c.p <= self.ceiling && p.p <= c.p && (p.q & c.q) == p.q
        } else {
            self.below.does_cover(c, p)
        }
    }
}
