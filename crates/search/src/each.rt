//! The descriptors one after another, by rising number.

ghost use Rattle.bounded.specs.Items.{items};
ghost use Rattle.table.specs.Sets.{entries_of, descriptors_of};
ghost use Rattle.search.specs.Searching.{Searched};

use crate::found::{Found, NoteRow};
use crate::guard::ROOM;
use crate::settle::settle;
use bounded::Bounded;
use matching::Block;
use table::Table;

/// The first descriptor that carries the rows, or a row of a note for each.
pub(crate) fn search_each(table: &Table, covers: &Bounded<u64, 17>, work: &mut [u8; ROOM]) -> Found
    ensures { Searched (entries_of table.now) (descriptors_of table.now) (items covers.now) result }
{
    let mut note = Bounded::default();
    // A loop, since each turn works in the lent octets and may add to the note.
    for descriptor in table.descriptors() {
        match settle(table, descriptor, covers, work) {
            Ok(()) => {
                return Found::Carried(descriptor.number);
            }
            Err(Block { group, sets }) => {
                // There is room for a row of each of at most 16 descriptors.
                let _ = note.push(NoteRow {
                    descriptor: descriptor.number,
                    group,
                    sets,
                });
            }
        }
    }
    Found::Blocked(note)
}
