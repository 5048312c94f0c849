//! What asks to be carried.

ghost use Rattle.std.specs.Prelude.{◌≡◌};
ghost use Rattle.judges.specs.declared.words.Proposal.{Proposal};

use judges::Proposal;

/// A row of the search: it gives a proposal.
pub trait Row {
    ghost asks: { Self → Proposal };

    fn proposal(&self) -> Proposal
        ensures { result ≡ asks self.now };
}

/// A proposal asks for itself.
impl Row for Proposal {
    ghost asks = { λ p. p };

    fn proposal(&self) -> Proposal {
        *self
    }
}
