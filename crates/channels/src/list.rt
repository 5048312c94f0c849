//! The calls on the channels held.

ghost use Rattle.std.specs.Prelude.{◌≡◌, ◌<◌, ◌≤◌, true, List, [], length, is_some, IfSome, OnOk, OnErr};
ghost use Rattle.std.specs.Option.{option_map};
ghost use Rattle.bounded.specs.Items.{items};
ghost use Rattle.keyed.specs.Keyed.{Numbered, After, at, rising, numbers};
ghost use Rattle.channels.specs.Holdings.{Holding, channel_row, channel_rows};
ghost use Rattle.channels.specs.Held.{channels_of, shall, asked, Held, Ranked, Turned, Met};

use crate::held::Channels;
use crate::words::{Channel, Event, State};
use bounded::{Bounded, NoRoom};
use judges::Proposal;
use keyed::{find, put, without};
use refusals::Refusal;

// What an event leaves of a channel depends on the channel's state: one match on both, as a rule of the project.
fn turned(channel: Channel, event: Event) -> Result<Option<Channel>, Refusal>
    ensures { Turned channel event result }
{
    match (channel.state, event) {
        (State::Pending, Event::Accept) => Ok(Some(Channel {
            state: State::Established,
            ..channel
        })),
        (State::Pending, Event::Decline) | (State::Established, Event::Close) => Ok(None),
        (State::Pending, Event::Close) | (State::Established, Event::Accept | Event::Decline) => {
            Err(Refusal::WrongState)
        }
    }
}

// The list with what shall be held at a number, in place of what is held there.
fn amended(list: &Bounded<Channel, 17>, number: u16, next: Option<Channel>) -> Bounded<Channel, 17>
    requires { (length (items list.now) ≤ 16) × ((rising 0 (numbers (channel_rows (items list.now))) ≡ true) × (IfSome next (λ d. d.number ≡ number))) }
    ensures after { After (channel_rows (items list.now)) (shall number (option_map (λ d. (channel_row d).value) next)) (channel_rows (items result)) }
    ensures few { Held (channel_rows (items list.now)) number → length (items result) ≤ length (items list.now) }
{
    let mut left = without(list, number);
    if let Some(channel) = next {
        put(&mut left, channel).unwrap();
    }
    left
}

impl Channels {
    /// No channels.
    pub fn new() -> Channels
        ensures { channels_of result ≡ [] }
    {
        Channels {
            list: Bounded::default(),
        }
    }

    /// How many are held.
    pub fn count(&self) -> usize
        ensures { result ≡ length (channels_of self.now) }
    {
        self.list.len()
    }

    /// The channel at a rank, from 0 by rising number.
    pub fn ranked(&self, rank: usize) -> Option<Channel>
        ensures { Ranked (channels_of self.now) rank result }
    {
        self.list.get(rank)
    }

    /// Whether a channel of the number is held.
    pub fn holds(&self, number: u16) -> bool
        ensures { result ≡ is_some (at (channels_of self.now) number) }
    {
        find(self.list.as_slice(), number).is_some()
    }

    /// The channels, by rising number.
    pub fn as_slice(&self) -> &[Channel]
        ensures { channel_rows result.now ≡ channels_of self.now }
    {
        self.list.as_slice()
    }

    /// The channels that an ask concerns: those held, and the asked one at its place.
    pub fn concerned(&self, number: u16, proposal: Proposal) -> Bounded<Channel, 17>
        ensures { After (channels_of self.now) (asked number proposal) (channel_rows (items result)) }
    {
        let channel = Channel {
            number,
            proposal,
            state: State::Pending,
        };
        amended(&self.list, number, Some(channel))
    }

    /// Holds these channels, which an ask concerns: an error, and nothing changes, where they are more than 16.
    pub fn hold(&mut self, number: u16, proposal: Proposal) -> Result<(), NoRoom>
        ensures held { OnOk result (After (channels_of self.old) (asked number proposal) (channels_of self.new)) }
        ensures full { OnErr result ((self.new ≡ self.old) × ((ys : List (Numbered Holding)) → After (channels_of self.old) (asked number proposal) ys → 16 < length ys)) }
    {
        let list = self.concerned(number, proposal);
        if list.len() > 16 {
            return Err(NoRoom);
        }
        *self = Channels { list };
        Ok(())
    }

    /// What an event does to the channel of a number.
    pub fn meet(&mut self, event: Event, number: u16) -> Result<(), Refusal>
        ensures { Met event number self.old result self.new }
    {
        let channel = find(self.list.as_slice(), number).ok_or(Refusal::Unknown)?;
        let next = turned(channel, event)?;
        let list = amended(&self.list, number, next);
        *self = Channels { list };
        Ok(())
    }
}
