//! What is judged: a capability that one side offers, and a proposal that asks for a channel.

ghost use Rattle.std.specs.Prelude.{◌≡◌};

/// What a side can receive: a kind code, with two numbers that the kind gives a meaning.
#[derive(Clone, Copy, PartialEq, Eq, Default, Debug)]
pub struct Capability {
    pub kind: u8,
    pub p: u32,
    pub q: u32,
}

/// What a channel would carry, in the words of a capability.
#[derive(Clone, Copy, PartialEq, Eq, Default, Debug)]
pub struct Proposal {
    pub kind: u8,
    pub p: u32,
    pub q: u32,
}

impl From<Proposal> for Capability {
    ghost from_gives = { λ w c. c ≡ record { kind = w.kind; p = w.p; q = w.q } };

    fn from(w: Proposal) -> Capability {
        Capability {
            kind: w.kind,
            p: w.p,
            q: w.q,
        }
    }
}
