//! One descriptor: whether its sets carry the rows, in lent octets.

ghost use Rattle.std.specs.Prelude.{length};
ghost use Rattle.bounded.specs.Items.{items};
ghost use Rattle.table.specs.Rows.{sets_of};
ghost use Rattle.table.specs.Sets.{entries_of};
ghost use Rattle.search.specs.Settling.{meets_at, Arranged, Settled};

use crate::fill::fill;
use crate::guard::ROOM;
use bounded::Bounded;
use matching::{Block, place};
use table::{Descriptor, Table};

/// Fills the board, and seats its rows at the sets: the row that holds each set, or the group that blocks.
/// Of the lent octets 34 are the board's, 16 the holders'.
pub(crate) fn arrange<'w>(
    table: &Table,
    descriptor: &Descriptor,
    covers: &Bounded<u64, 17>,
    work: &'w mut [u8; ROOM],
) -> Result<&'w [u8], Block>
    ensures { Arranged (meets_at (entries_of table.now) (sets_of descriptor.now) (items covers.now)) (length (items covers.now)) (length (sets_of descriptor.now)) result }
{
    let (board, rest) = work.split_at_mut(34);
    let board = &mut board[..2 * covers.len()];
    let holders = &mut rest[..descriptor.sets.len()];
    fill(table, descriptor, covers, board);
    place(board, holders)?;
    Ok(holders)
}

/// Whether the sets of a descriptor carry the rows, or the group that blocks.
pub(crate) fn settle(
    table: &Table,
    descriptor: &Descriptor,
    covers: &Bounded<u64, 17>,
    work: &mut [u8; ROOM],
) -> Result<(), Block>
    ensures { Settled (meets_at (entries_of table.now) (sets_of descriptor.now) (items covers.now)) (length (items covers.now)) (length (sets_of descriptor.now)) result }
{
    arrange(table, descriptor, covers, work)?;
    Ok(())
}
