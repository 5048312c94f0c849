//! The cover board: each row and entry put to the judge once, and each set's entries as places.

ghost use Rattle.std.specs.Prelude.{◌≤◌, map, length};
ghost use Rattle.bounded.specs.Items.{items};
ghost use Rattle.table.specs.Sets.{entries_of};
ghost use Rattle.search.specs.Filling.{Covering, Placing, Covered};

use crate::row::Row;
use bounded::Bounded;
use judges::{Judge, Proposal};
use matching::mask_where;
use table::Table;

// The entries that cover a proposal, a bit for each place.
fn covering<J: Judge>(judge: &J, table: &Table, proposal: &Proposal) -> u64
    ensures { Covering (J.Judge.covers judge.now) (entries_of table.now) proposal.now result }
{
    mask_where(table.entries(), |entry| {
        judge.does_cover(&entry.capability, proposal)
    })
}

/// The entries that a set names, a bit for each place.
pub(crate) fn places_of(table: &Table, members: &[u16]) -> u64
    ensures { Placing (entries_of table.now) members.now result }
{
    mask_where(table.entries(), |entry| members.contains(&entry.number))
}

/// The entries that cover each row's proposal.
pub(crate) fn cover<J: Judge, R: Row>(judge: &J, table: &Table, rows: &[R]) -> Bounded<u64, 17>
    requires { length rows.now ≤ 17 }
    ensures { Covered (J.Judge.covers judge.now) (entries_of table.now) (map R.Row.asks rows.now) (items result) }
{
    let mut masks = Bounded::default();
    for row in rows {
        let proposal = row.proposal();
        masks.push(covering(judge, table, &proposal)).unwrap();
    }
    masks
}
