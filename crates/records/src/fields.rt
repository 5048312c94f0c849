//! The range of the fields of a record.

ghost use Rattle.std.specs.Prelude.{◌≡◌, ◌≤◌, drop, slice_index};
ghost use Rattle.records.specs.Layout.{all_zero, in_range, all_in_range, shorts, all_named};
ghost use Rattle.records.specs.Reads.{octets, rows};

use super::held::{Cursor, Record};
use super::tag::Tag;

impl Record<'_> {
    /// Whether each octet from a place on is zero.
    pub fn is_zero_from(&self, from: usize) -> bool
        ensures { result ≡ all_zero (drop from (octets self.now)) }
    {
        let octets = self.octets;
        octets.iter().skip(from).all(|octet| *octet == 0)
    }

    // Whether the members of an alternative set of at most 15 are all 1 or more.
    fn are_named(&self) -> bool
        ensures { slice_index (octets self.now) 1 ≤ 15 → result ≡ all_named (shorts (slice_index (octets self.now) 1) 2 (octets self.now)) }
    {
        self.members().iter().all(|member| *member != 0)
    }

    // Whether each field is in its range, and each octet without a name is zero.
    #[tactic(auto, using(crate::proofs::Tags::out_of_range))]
    fn is_in_range(&self) -> bool
        ensures { result ≡ in_range (octets self.now) }
    {
        let Ok(tag) = Tag::try_from(self.tag()) else {
            return false;
        };
        match tag {
            Tag::Begin | Tag::Descriptor => self.is_zero_from(2),
            Tag::Entry => self.number() != 0 && self.is_zero_from(12),
            Tag::Removed => self.number() != 0 && self.second() == 0 && self.is_zero_from(4),
            Tag::Alternatives => {
                let count = self.second();
                (1..=15).contains(&count)
                    && self.are_named()
                    && self.is_zero_from(2 + 2 * usize::from(count))
            }
            Tag::End | Tag::Mode => self.is_zero_from(1),
            Tag::Element => self.number() == 0 && self.is_zero_from(12),
        }
    }
}

/// Whether each record that is left is in range.
pub fn are_in_range(mut message: Cursor) -> bool
    ensures { result ≡ all_in_range (rows message.entry) }
{
    message.all(|record| record.is_in_range())
}
