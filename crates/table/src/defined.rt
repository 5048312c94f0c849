//! Whether every member names an entry.

ghost use Rattle.std.specs.Prelude.{◌≡◌, map};
ghost use Rattle.std.specs.List.{list_all};
ghost use Rattle.bounded.specs.Numbers.{holds};
ghost use Rattle.table.specs.Shape.{defined};
ghost use Rattle.table.specs.Rows.{members_of, entry_rows, descriptor_rows};

use super::held::{AlternativeSet, Descriptor, Entry};
use bounded::NumberSet;

// Whether each member is one of the numbers at which an entry stands.
fn are_members_defined(defined: &NumberSet, members: &[u16]) -> bool
    ensures { result ≡ list_all (holds defined.now) members.now }
{
    members.iter().all(|m| defined.contains(*m))
}

// Whether each member of each set is.
fn are_sets_defined(defined: &NumberSet, sets: &[AlternativeSet]) -> bool
    ensures { result ≡ list_all (list_all (holds defined.now)) (map members_of sets.now) }
{
    sets.iter()
        .all(|s| are_members_defined(defined, &s.members))
}

/// Whether each member of each set of each descriptor names an entry.
// Out of line, so that the set which it fills is on the stack only while it runs.
#[inline(never)]
pub(crate) fn are_defined(entries: &[Entry], descriptors: &[Descriptor]) -> bool
    ensures { result ≡ defined (entry_rows entries.now) (descriptor_rows descriptors.now) }
{
    // Marked once: each of up to 3,840 members would else be looked for among 64 entries.
    let mut defined = NumberSet::new();
    // A loop, since it fills a set: a chain reads no plainer.
    for entry in entries {
        defined.insert(entry.number);
    }
    descriptors
        .iter()
        .all(|d| are_sets_defined(&defined, &d.sets))
}
