//! The board of a descriptor: the sets that each row can use.

ghost use Rattle.std.specs.Prelude.{◌≡◌, ℕ, ◌*◌, ◌<◌, not, List, length, ◌==◌, bit_and, slice_index};
ghost use Rattle.bounded.specs.Bit.{bit};
ghost use Rattle.bounded.specs.Items.{items};
ghost use Rattle.matching.specs.Masks.{can};
ghost use Rattle.table.specs.Rows.{sets_of};
ghost use Rattle.table.specs.Sets.{entries_of};
ghost use Rattle.search.specs.Filling.{Placing};
ghost use Rattle.search.specs.Lists.{At, passes_at};
ghost use Rattle.search.specs.Settling.{meets_at};

use crate::cover::places_of;
use bounded::Bounded;
use matching::{mask_where, put_mask};
use table::{Descriptor, Table};

// The entries that each set names.
fn resolve(table: &Table, descriptor: &Descriptor) -> Bounded<u64, 16>
    ensures long { length (items result) ≡ length (sets_of descriptor.now) }
    ensures each { (s : ℕ) (S : List ℕ) → At S (sets_of descriptor.now) s → Placing (entries_of table.now) S (slice_index (items result) s) }
{
    let mut places = Bounded::default();
    for set in descriptor.sets.as_slice() {
        places
            .push(places_of(table, set.members.as_slice()))
            .unwrap();
    }
    places
}

// The sets whose entries meet those of a mask, a bit for each.
fn meeting_sets(cover: u64, places: &Bounded<u64, 16>) -> u16
    ensures { (s : ℕ) → bit result s ≡ passes_at (λ x. not (bit_and x cover == 0)) (items places.now) s }
{
    mask_where(places.as_slice(), |place| *place & cover != 0) as u16
}

// Table, descriptor and masks stay parameters of this and of the calls above: a struct of them would be made anew for each descriptor.
/// Fills the board: row r can use set s where an entry that the set names is marked in the row's mask.
pub(crate) fn fill(
    table: &Table,
    descriptor: &Descriptor,
    covers: &Bounded<u64, 17>,
    board: &mut [u8],
)
    requires { length board.old ≡ 2 * length (items covers.now) }
    ensures { (r s : ℕ) → r < length (items covers.now) → can board.new r s ≡ meets_at (entries_of table.now) (sets_of descriptor.now) (items covers.now) r s }
{
    let places = resolve(table, descriptor);
    for (row, cover) in covers.as_slice().iter().enumerate() {
        put_mask(board, row, meeting_sets(*cover, &places));
    }
}
