//! The session.

use channels::Channels;
use table::Table;

/// A session over a judge: its number, its table and the channels held. A pending open of a session that was let go cannot be spent, so a host settles all of them first.
#[derive(Drop)]
pub struct Session<J> {
    pub(crate) judge: J,
    pub(crate) number: u16,
    pub(crate) table: Table,
    pub(crate) channels: Channels,
}
