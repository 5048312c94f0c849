//! The second decision, by brute force: which sets can be in use once some of the rows are seated.

use crate::announced::{Announced, AnnouncedDescriptor, AnnouncedEntry, AnnouncedSet};
use bounded::Bounded;
use judges::{Judge, Proposal, StandardJudge};

// How many sets an announced descriptor has at most.
const SETS: usize = 10;

// How many masks of so many sets there are.
const MASKS: usize = 1024;

/// The sets of a descriptor that each row can use: a mask for each row, with a bit for each set.
pub type Usable = Bounded<u32, 18>;

// Whether the entry of this number covers the proposal.
fn does_entry_cover(entries: &[AnnouncedEntry], number: u16, wanted: &Proposal) -> bool {
    entries.iter().any(|e| e.number == number && StandardJudge.does_cover(&e.capability, wanted))
}

// Whether a member of the set names an entry that covers the proposal.
fn can_use(entries: &[AnnouncedEntry], set: &AnnouncedSet, wanted: &Proposal) -> bool {
    set.members
        .iter()
        .any(|number| does_entry_cover(entries, *number, wanted))
}

// The sets that a proposal can use, a bit for each, the first set's the lowest.
fn sets_for(entries: &[AnnouncedEntry], sets: &[AnnouncedSet], wanted: &Proposal) -> u32 {
    sets.iter().rev().fold(0, |mask, set| {
        mask << 1 | u32::from(can_use(entries, set, wanted))
    })
}

/// The sets of the descriptor that each row can use.
pub(crate) fn usable(
    entries: &[AnnouncedEntry],
    d: &AnnouncedDescriptor,
    rows: &[Proposal],
) -> Usable {
    let mut masks = Bounded::default();
    for row in rows {
        let _ = masks.push(sets_for(entries, &d.sets, row));
    }
    masks
}

// From the sets in use, marks those that are in use once a row has one more of its sets.
fn spread(reached: &mut [bool; MASKS], used: usize, mask: usize) {
    // By number, since a set is a bit of the mask.
    for s in 0..SETS {
        let bit = 1 << s;
        if used & bit == 0 && mask & bit != 0 {
            reached[(used | bit) % MASKS] = true;
        }
    }
}

/// Whether a descriptor carries the rows. A mask of sets is reached where the first rows, as many
/// as it has sets, can be seated at exactly its sets; the rows are carried where a mask of as many
/// sets as there are rows is reached.
pub(crate) fn is_carried(usable: &[u32]) -> bool {
    let mut reached = [false; MASKS];
    reached[0] = true;
    // By number, since masks further on are marked while those before are read.
    for used in 0..MASKS {
        if reached[used] {
            match usable.get(used.count_ones() as usize) {
                Some(mask) => spread(&mut reached, used, *mask as usize),
                None => return true,
            }
        }
    }
    false
}

/// Whether the rows find seats in order, each at the first free set that it can use, and none moves.
pub(crate) fn is_carried_in_order(usable: &[u32]) -> bool {
    let mut used: u32 = 0;
    // Row by row, since each takes a set from those after it.
    for mask in usable {
        let free = *mask & !used;
        if free == 0 {
            return false;
        }
        used |= free & (!free).wrapping_add(1);
    }
    true
}

/// The smallest number of a descriptor that carries the rows.
pub(crate) fn smallest_of(announced: &Announced, rows: &[Proposal]) -> Option<u8> {
    announced
        .descriptors
        .iter()
        .filter(|d| is_carried(&usable(&announced.entries, d, rows)))
        .map(|d| d.number)
        .min()
}
