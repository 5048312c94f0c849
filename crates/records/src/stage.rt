//! How far a message has come.

ghost use Rattle.std.specs.Prelude.{◌≡◌, ℕ, false, List, [], ◌∷◌, MatchOption};
ghost use Rattle.records.specs.Stages.{rest};
ghost use Rattle.records.specs.Tag.{code};

use super::tag::Tag;

#[derive(Clone, Copy)]
pub enum Stage {
    SetStart,
    Entries,
    /// In a descriptor that can have so many more alternative sets.
    Alternatives(u8),
    Ended,
    ModeStart,
    /// In a mode: so many more modes can come, and so many more elements of this one.
    Elements(u8, u8),
}

impl Stage {
    // The stage after a tag: none where the tag is out of order.
    pub(crate) fn after(self, tag: Tag) -> Option<Stage>
        ensures { MatchOption result ((ts : List ℕ) → rest self (code tag ∷ ts) ≡ false) (λ s. (ts : List ℕ) → rest self (code tag ∷ ts) ≡ rest s ts) }
    {
        match (self, tag) {
            (Stage::SetStart, Tag::Begin) => Some(Stage::Entries),
            (Stage::Entries, Tag::Entry | Tag::Removed) => Some(Stage::Entries),
            (Stage::Entries | Stage::Alternatives(_), Tag::Descriptor) => {
                Some(Stage::Alternatives(16))
            }
            (Stage::Alternatives(n), Tag::Alternatives) if n > 0 => {
                Some(Stage::Alternatives(n - 1))
            }
            (Stage::Entries | Stage::Alternatives(_), Tag::End) => Some(Stage::Ended),
            (Stage::ModeStart, Tag::Mode) => Some(Stage::Elements(15, 16)),
            (Stage::Elements(m, n), Tag::Mode) if n < 16 && m > 0 => {
                Some(Stage::Elements(m - 1, 16))
            }
            (Stage::Elements(m, n), Tag::Element) if n > 0 => Some(Stage::Elements(m, n - 1)),
            _ => None,
        }
    }

    // Whether a message can end at this stage.
    pub(crate) fn may_end(self) -> bool
        ensures { result ≡ rest self [] }
    {
        match self {
            Stage::Ended => true,
            Stage::Elements(_, n) => n < 16,
            _ => false,
        }
    }
}
