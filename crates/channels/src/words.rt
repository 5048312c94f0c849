//! A channel, its state, and the events that it meets.

use judges::Proposal;

/// An asked channel is pending until it is accepted or declined; an accepted one is established until it is closed.
#[derive(Clone, Copy, PartialEq, Eq, Debug, Default)]
pub enum State {
    #[default]
    Pending,
    Established,
}

/// A logical channel that is held: its number, what it carries, and its state.
#[derive(Clone, Copy, Default)]
pub struct Channel {
    pub number: u16,
    pub proposal: Proposal,
    pub state: State,
}

/// What happens to a channel that is held.
#[derive(Clone, Copy)]
pub enum Event {
    Accept,
    Decline,
    Close,
}
