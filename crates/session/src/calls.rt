//! Making, set, mode request, seating and the read-outs.

ghost use Rattle.std.specs.Prelude.{◌≡◌, [], MatchResult};
ghost use Rattle.refusals.specs.Checks.{First, Passed};
ghost use Rattle.search.specs.Scratch.{left_over};
ghost use Rattle.session.specs.Calls.{request as requesting};
ghost use Rattle.session.specs.Rules.{row_checks};
ghost use Rattle.session.specs.Steps.{Made, Counts, Ranks, Reads, of_request, Did, Opens, SeatedAs, SeatingHeld};

use crate::asking::ROWS;
use crate::state::Session;
use crate::words::Opened;
use channels::{Channel, Channels};
use judges::{Capability, Judge, Proposal};
use modes::{Available, request_mode};
use refusals::Refusal;
use search::{NoteRow, ROOM, Seat, Seating, in_scratch, seating};
use table::Table;

impl<J: Judge> Session<J> {
    /// A session over a judge, with an empty table and no channels.
    pub fn new(judge: J, number: u16) -> Session<J>
        ensures { Made judge number result }
    {
        Session {
            judge,
            number,
            table: Table::new(),
            channels: Channels::new(),
        }
    }

    /// How many channels are held.
    pub fn count(&self) -> usize
        ensures { Counts self.now result }
    {
        self.channels.count()
    }

    /// The channel at a rank, from 0 by rising number, or none.
    pub fn channel(&self, rank: usize) -> Option<Channel>
        ensures { Ranks self.now rank result }
    {
        self.channels.ranked(rank)
    }

    /// The capability that stands at an entry number, or none.
    pub fn entry(&self, number: u16) -> Option<Capability>
        ensures { Reads self.now number result }
    {
        self.table.entry(number)
    }

    /// Opens a channel at once, by ask and accept: answers the smallest descriptor that carries all channels.
    pub fn open_channel(
        &mut self,
        number: u16,
        proposal: Proposal,
        note: &mut [NoteRow],
        scratch: &mut [u8],
    ) -> Result<u8, Refusal>
        ensures opens { Opens J.Judge.lawful J.Judge.covers self.old number proposal note.old scratch.old result note.new self.new }
        ensures scratch { scratch.new ≡ left_over scratch.old }
    {
        let Opened {
            pending,
            descriptor,
        } = self.ask(number, proposal, note, scratch)?;
        // The pending open of the ask just done is not refused.
        self.accept(pending).unwrap();
        Ok(descriptor)
    }

    /// The first mode of a message that a standing descriptor carries, and the smallest such descriptor. The channels held play no part.
    pub fn request_mode(&self, message: &[u8], scratch: &mut [u8]) -> Result<Available, Refusal>
        ensures did { Did J.Judge.lawful J.Judge.covers self.now (requesting message.now scratch.old) (of_request result) [] self.now }
        ensures scratch { scratch.new ≡ left_over scratch.old }
    {
        request_mode(&self.judge, &self.table, message, scratch)
    }

    // The seats of the channels held, for a list of so many rows, with octets to work in.
    fn seats_held(&self, rows: usize, work: &mut [u8; ROOM]) -> Result<Option<Seating>, Refusal>
        ensures { MatchResult result (λ o. Passed (row_checks rows) × SeatingHeld J.Judge.covers self.now o) (λ k. First (row_checks rows) k) }
    {
        if rows < ROWS {
            return Err(Refusal::List);
        }
        seating(&self.judge, &self.table, self.channels.as_slice(), work)
    }

    /// Seats the channels held: answers the smallest descriptor that carries them, and writes a row for each channel, by rising number; none where no channel is held. The list has at least 16 rows, the scratch at least 512 octets.
    pub fn seating(&self, list: &mut [Seat], scratch: &mut [u8]) -> Result<Option<u8>, Refusal>
        ensures seated { SeatedAs J.Judge.covers self.now list.old scratch.old result list.new }
        ensures scratch { scratch.new ≡ left_over scratch.old }
    {
        let rows = list.len();
        let Some(seated) = in_scratch(scratch, |work| self.seats_held(rows, work))?? else {
            return Ok(None);
        };
        let seats = seated.seats;
        list[..seats.len()].copy_from_slice(seats.as_slice());
        Ok(Some(seated.descriptor))
    }
}
