//! Accept, decline and close: what an event does to a channel that is held.

ghost use Rattle.std.specs.Prelude.{◌≡◌, []};
ghost use Rattle.session.specs.Calls.{accept as accepting, decline as declining, close as closing};
ghost use Rattle.session.specs.Steps.{of_settling, settling_of, of_close, HandsBack, Settled, Did};

use crate::state::Session;
use crate::words::{HandedBack, PendingOpen};
use channels::Event;
use judges::Judge;
use refusals::Refusal;

impl PendingOpen {
    /// The number of the session that was asked.
    pub fn session(&self) -> u16
        ensures { result ≡ self.now.session }
    {
        self.session
    }

    /// The number of the pending channel.
    pub fn channel(&self) -> u16
        ensures { result ≡ self.now.channel }
    {
        self.channel
    }
}

impl<J: Judge> Session<J> {
    // What accept or decline does to the channel that a pending open names.
    fn settle(&mut self, event: Event, session: u16, channel: u16) -> Result<(), Refusal>
        ensures { Settled self.old event session channel result self.new }
    {
        if session != self.number {
            return Err(Refusal::Unknown);
        }
        self.channels.meet(event, channel)
    }

    // Spends a pending open on an event, or hands it back.
    fn spend(&mut self, event: Event, pending: PendingOpen) -> Result<(), HandedBack>
        ensures settled { Settled self.old event pending.session pending.channel (settling_of result) self.new }
        ensures back { HandsBack pending result }
    {
        match self.settle(event, pending.session, pending.channel) {
            Ok(()) => {
                let PendingOpen {
                    session: _,
                    channel: _,
                } = pending;
                Ok(())
            }
            Err(refusal) => Err(HandedBack { refusal, pending }),
        }
    }

    /// Accepts a pending open: its channel is established.
    pub fn accept(&mut self, pending: PendingOpen) -> Result<(), HandedBack>
        ensures did { Did J.Judge.lawful J.Judge.covers self.old (accepting pending.session pending.channel) (of_settling result) [] self.new }
        ensures back { HandsBack pending result }
    {
        self.spend(Event::Accept, pending)
    }

    /// Declines a pending open: its channel is not held any more.
    pub fn decline(&mut self, pending: PendingOpen) -> Result<(), HandedBack>
        ensures did { Did J.Judge.lawful J.Judge.covers self.old (declining pending.session pending.channel) (of_settling result) [] self.new }
        ensures back { HandsBack pending result }
    {
        self.spend(Event::Decline, pending)
    }

    /// Closes an established channel: it is not held any more.
    pub fn close(&mut self, channel: u16) -> Result<(), Refusal>
        ensures { Did J.Judge.lawful J.Judge.covers self.old (closing channel) (of_close result) [] self.new }
    {
        self.channels.meet(Event::Close, channel)
    }
}
