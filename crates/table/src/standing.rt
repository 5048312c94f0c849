//! The table, and what every table keeps.

ghost use Rattle.std.specs.Prelude.{◌≡◌, true};
ghost use Rattle.bounded.specs.Items.{items};
ghost use Rattle.std.specs.List.{list_all};
ghost use Rattle.keyed.specs.Keyed.{rising, numbers};
ghost use Rattle.table.specs.Rows.{entry_rows, descriptor_rows};
ghost use Rattle.table.specs.Shape.{is_named, is_shaped, defined};

use super::held::{Descriptor, Entry};
use bounded::Bounded;

/// A capability table: entries and descriptors by rising number, each as it must be, each member an entry.
#[derive(Clone, Copy)]
pub struct Table {
    pub(crate) entries: Bounded<Entry, 64>,
    pub(crate) descriptors: Bounded<Descriptor, 16>,
    ghost ordered: { rising 0 (numbers (entry_rows (items entries))) ≡ true },
    ghost arranged: { rising 0 (numbers (descriptor_rows (items descriptors))) ≡ true },
    ghost named: { list_all is_named (entry_rows (items entries)) ≡ true },
    ghost shaped: { list_all is_shaped (descriptor_rows (items descriptors)) ≡ true },
    ghost whole: { defined (entry_rows (items entries)) (descriptor_rows (items descriptors)) ≡ true },
}
