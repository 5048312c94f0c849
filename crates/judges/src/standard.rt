//! The standard judge: the standard kinds, and no others.

ghost use Rattle.std.specs.Prelude.{◌≡◌, ◌/◌, ◌%◌};
ghost use Rattle.judges.specs.Tests.{
  frames,
  pictures,
  serving,
  limits_kept,
  standard_lawful,
  standard_covers,
};

use crate::judge::Judge;
use crate::kind::Kind;
use crate::words::{Capability, Proposal};

/// The judge of the five standard kinds.
#[derive(Clone, Copy)]
pub struct StandardJudge;

// Whether p is a number of frames per packet.
fn is_frame_count(p: u32) -> bool
    ensures { result ≡ frames p }
{
    1 <= p && p <= 256
}

// The picture interval of CIF in p, 0 where the format is absent.
fn cif(p: u32) -> u32
    ensures { result ≡ p / 16 }
{
    p / 16
}

// The picture interval of QCIF in p, 0 where the format is absent.
fn qcif(p: u32) -> u32
    ensures { result ≡ p % 16 }
{
    p % 16
}

// Whether p holds two picture intervals that are at most 4, and not both absent.
fn has_pictures(p: u32) -> bool
    ensures { result ≡ pictures p }
{
    cif(p) <= 4 && qcif(p) <= 4 && p != 0
}

// Whether a format with the interval `have` serves one that is wanted with the interval `want`.
fn serves(have: u32, want: u32) -> bool
    ensures { result ≡ serving have want }
{
    want == 0 || (1 <= have && have <= want)
}

// Whether the proposal keeps within the limits that the capability's kind sets.
fn keeps_limits(c: &Capability, p: &Proposal) -> bool
    ensures { result ≡ limits_kept c.now p.now }
{
    let Ok(kind) = Kind::try_from(c.kind) else {
        return false;
    };
    match kind {
        Kind::G711ALaw | Kind::G711MuLaw | Kind::T120 => p.p <= c.p,
        Kind::G7231 => p.p <= c.p && p.q <= c.q,
        Kind::H261 => p.q <= c.q && serves(cif(c.p), cif(p.p)) && serves(qcif(c.p), qcif(p.p)),
    }
}

impl Judge for StandardJudge {
    ghost lawful = { λ _ c. standard_lawful c };

    ghost covers = { λ _ c w. standard_covers c w };

    fn is_lawful(&self, c: &Capability) -> bool {
        let Ok(kind) = Kind::try_from(c.kind) else {
            return false;
        };
        match kind {
            Kind::G711ALaw | Kind::G711MuLaw => is_frame_count(c.p) && c.q == 0,
            Kind::G7231 => is_frame_count(c.p) && c.q <= 1,
            Kind::H261 => has_pictures(c.p) && 1 <= c.q && c.q <= 19200,
            Kind::T120 => c.q == 0,
        }
    }

    fn does_cover(&self, c: &Capability, p: &Proposal) -> bool {
        c.kind == p.kind
            && self.is_lawful(c)
            && self.is_lawful(&Capability::from(*p))
            && keeps_limits(c, p)
    }
}
