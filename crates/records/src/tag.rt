//! The tags of the records.

ghost use Rattle.std.specs.Prelude.{◌≡◌, MatchResult};
ghost use Rattle.records.specs.Tag.{code, Unknown};

/// What a record is: the octet that it begins with.
#[derive(Clone, Copy, Debug, PartialEq, Eq)]
pub enum Tag {
    Begin = 1,
    Entry = 2,
    Removed = 3,
    Descriptor = 4,
    Alternatives = 5,
    End = 6,
    Mode = 7,
    Element = 8,
}

/// An octet that is no tag.
#[derive(Clone, Copy, Debug, PartialEq, Eq)]
pub struct UnknownTag(pub u8);

impl TryFrom<u8> for Tag {
    type Error = UnknownTag;

    ghost try_from_gives = { λ octet result. MatchResult result (λ tag. octet ≡ code tag) (λ e. (e.0 ≡ octet) × Unknown octet) };

    fn try_from(octet: u8) -> Result<Tag, UnknownTag> {
        match octet {
            1 => Ok(Tag::Begin),
            2 => Ok(Tag::Entry),
            3 => Ok(Tag::Removed),
            4 => Ok(Tag::Descriptor),
            5 => Ok(Tag::Alternatives),
            6 => Ok(Tag::End),
            7 => Ok(Tag::Mode),
            8 => Ok(Tag::Element),
            _ => Err(UnknownTag(octet)),
        }
    }
}

impl From<Tag> for u8 {
    ghost from_gives = { λ tag octet. octet ≡ code tag };

    fn from(tag: Tag) -> u8 {
        tag as u8
    }
}
