//! The standard kinds: those that H.245 names (7.2.2.5 to 7.2.2.7).

ghost use Rattle.std.specs.Prelude.{◌≡◌};
ghost use Rattle.judges.specs.Kinds.{code_of, Decodes};

/// A standard kind, by its code.
#[derive(Clone, Copy, PartialEq, Eq, Debug)]
pub enum Kind {
    G711ALaw = 1,
    G711MuLaw = 2,
    G7231 = 3,
    H261 = 4,
    T120 = 5,
}

/// A code that no standard kind has.
#[derive(Clone, Copy, PartialEq, Eq, Debug)]
pub struct UnknownKind(pub u8);

impl TryFrom<u8> for Kind {
    type Error = UnknownKind;

    ghost try_from_gives = { Decodes };

    fn try_from(code: u8) -> Result<Self, UnknownKind> {
        match code {
            1 => Ok(Kind::G711ALaw),
            2 => Ok(Kind::G711MuLaw),
            3 => Ok(Kind::G7231),
            4 => Ok(Kind::H261),
            5 => Ok(Kind::T120),
            _ => Err(UnknownKind(code)),
        }
    }
}

impl From<Kind> for u8 {
    ghost from_gives = { λ kind code. code ≡ code_of kind };

    fn from(kind: Kind) -> u8 {
        kind as u8
    }
}
