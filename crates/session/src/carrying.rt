//! What a table can carry, in lent memory that is long enough.

ghost use Rattle.channels.specs.Holdings.{channel_rows, proposals};
ghost use Rattle.channels.specs.Held.{channels_of};
ghost use Rattle.search.specs.Answers.{Outcome};
ghost use Rattle.table.specs.Sets.{standing};
ghost use Rattle.session.specs.Rules.{Whether, Carried, Supported};

use channels::{Channel, Channels};
use judges::{Judge, Proposal};
use search::{Found, ROOM, search};
use table::Table;

// The judge and the table stay two parameters of what follows, as of the search's own calls.

/// Whether an entry covers the proposal.
pub(crate) fn is_supported<J: Judge>(judge: &J, table: &Table, proposal: &Proposal) -> bool
    ensures { Whether result (Supported (J.Judge.covers judge.now) (standing table.now) proposal.now) }
{
    table
        .entries()
        .iter()
        .any(|entry| judge.does_cover(&entry.capability, proposal))
}

/// The smallest descriptor that carries the channels, or a row of a note for each.
pub(crate) fn find<J: Judge>(
    judge: &J,
    table: &Table,
    channels: &[Channel],
    work: &mut [u8; ROOM],
) -> Found
    ensures { Outcome (J.Judge.covers judge.now) (standing table.now) (proposals (channel_rows channels.now)) result }
{
    // A scratch of 512 octets is not refused.
    search(judge, table, channels, work).unwrap()
}

/// Whether the channels are carried: no channels always are.
pub(crate) fn are_carried<J: Judge>(
    judge: &J,
    table: &Table,
    channels: &Channels,
    work: &mut [u8; ROOM],
) -> bool
    ensures { Whether result (Carried (J.Judge.covers judge.now) (standing table.now) (proposals (channels_of channels.now))) }
{
    if channels.count() == 0 {
        return true;
    }
    matches!(
        find(judge, table, channels.as_slice(), work),
        Found::Carried(_)
    )
}
