//! Set and ask: what a message or a new channel needs of the table, in lent scratch memory.

ghost use Rattle.std.specs.Prelude.{◌≡◌, [], MatchResult};
ghost use Rattle.refusals.specs.Checks.{First, Passed};
ghost use Rattle.channels.specs.Holdings.{proposals};
ghost use Rattle.search.specs.Scratch.{left_over, scratch_checks};
ghost use Rattle.table.specs.Sets.{standing};
ghost use Rattle.session.specs.Calls.{set as setting, ask as asking};
ghost use Rattle.session.specs.Rules.{ask_checks, Carried, Whether};
ghost use Rattle.session.specs.Steps.{situation, held, of_set, of_ask, HandsOut, Did, FoundFor, asking_checks};

use crate::carrying::{are_carried, find, is_supported};
use crate::state::Session;
use crate::words::{Opened, PendingOpen};
use judges::{Judge, Proposal};
use refusals::Refusal;
use search::{Found, NoteRow, ROOM, in_scratch};
use table::Table;

/// How many rows the note of an ask, and the list of a seating, has at least.
pub(crate) const ROWS: usize = 16;

impl<J: Judge> Session<J> {
    // Whether a table carries the channels held.
    fn is_wide(&self, table: &Table, scratch: &mut [u8]) -> Result<bool, Refusal>
        ensures scratch { scratch.new ≡ left_over scratch.old }
        ensures answer { MatchResult result (λ b. Passed (scratch_checks scratch.old) × Whether b (Carried (J.Judge.covers self.now.judge) (standing table.now) (proposals (held self.now)))) (λ k. First (scratch_checks scratch.old) k) }
    {
        in_scratch(scratch, |work| {
            are_carried(&self.judge, table, &self.channels, work)
        })
    }

    // Takes a set message: the table after it has to carry the channels held. What needs no scratch comes before the call in it, so that no table is handed through that call.
    fn take(&mut self, message: &[u8], scratch: &mut [u8]) -> Result<u8, Refusal>
        ensures did { Did J.Judge.lawful J.Judge.covers self.old (setting message.now scratch.old) (of_set result) [] self.new }
        ensures scratch { scratch.new ≡ left_over scratch.old }
    {
        match self.table.after(&self.judge, message) {
            Ok(table) => {
                let carried = self.is_wide(&table, scratch)?;
                if !carried {
                    return Err(Refusal::TooNarrow);
                }
                self.table = table;
                Ok(message[1])
            }
            Err(refusal) => {
                in_scratch(scratch, |_| ())?;
                Err(refusal)
            }
        }
    }

    /// Takes a set message: answers its sequence number. The scratch has at least 512 octets.
    pub fn set(&mut self, message: &[u8], scratch: &mut [u8]) -> Result<u8, Refusal>
        ensures did { Did J.Judge.lawful J.Judge.covers self.old (setting message.now scratch.old) (of_set result) [] self.new }
        ensures scratch { scratch.new ≡ left_over scratch.old }
    {
        // Before the work on the message, which `take` would do in vain.
        if scratch.len() < ROOM {
            return Err(Refusal::Scratch);
        }
        self.take(message, scratch)
    }

    // The checks of an ask between those of lent memory and the last.
    fn may_ask(&self, number: u16, proposal: &Proposal) -> Result<(), Refusal>
        ensures { MatchResult result (λ _. Passed (ask_checks (J.Judge.lawful self.now.judge) (J.Judge.covers self.now.judge) self.now.number (situation self.now) number proposal.now)) (λ k. First (ask_checks (J.Judge.lawful self.now.judge) (J.Judge.covers self.now.judge) self.now.number (situation self.now) number proposal.now) k) }
    {
        if number == 0 {
            return Err(Refusal::Zero);
        }
        if self.channels.holds(number) {
            return Err(Refusal::InUse);
        }
        if !is_supported(&self.judge, &self.table, proposal) {
            return Err(Refusal::NotSupported);
        }
        Ok(())
    }

    // What is found of the channels that an ask concerns, which is lent a note of so many rows, with octets to work in.
    fn found_for(
        &self,
        number: u16,
        proposal: Proposal,
        rows: usize,
        work: &mut [u8; ROOM],
    ) -> Result<Found, Refusal>
        ensures { MatchResult result (λ f. Passed (asking_checks J.Judge.lawful J.Judge.covers self.now number proposal rows) × FoundFor J.Judge.covers self.now number proposal f) (λ k. First (asking_checks J.Judge.lawful J.Judge.covers self.now number proposal rows) k) }
    {
        if rows < ROWS {
            return Err(Refusal::List);
        }
        self.may_ask(number, &proposal)?;
        let concerned = self.channels.concerned(number, proposal);
        Ok(find(&self.judge, &self.table, concerned.as_slice(), work))
    }

    /// Asks for a channel: makes it pending, and answers its pending open and the smallest descriptor that carries all channels. Refused as not available, it leaves in the note a row for each standing descriptor. The note has at least 16 rows, the scratch at least 512 octets.
    pub fn ask(
        &mut self,
        number: u16,
        proposal: Proposal,
        note: &mut [NoteRow],
        scratch: &mut [u8],
    ) -> Result<Opened, Refusal>
        ensures did { Did J.Judge.lawful J.Judge.covers self.old (asking number proposal note.old scratch.old) (of_ask result) note.new self.new }
        ensures handed { HandsOut self.old.number number result }
        ensures scratch { scratch.new ≡ left_over scratch.old }
    {
        let rows = note.len();
        let found = in_scratch(scratch, |work| {
            self.found_for(number, proposal, rows, work)
        })??;
        match found {
            Found::Carried(descriptor) => {
                self.channels.hold(number, proposal).unwrap();
                let pending = PendingOpen {
                    session: self.number,
                    channel: number,
                };
                Ok(Opened {
                    pending,
                    descriptor,
                })
            }
            Found::Blocked(blocks) => {
                note[..blocks.len()].copy_from_slice(blocks.as_slice());
                Err(Refusal::NotAvailable {
                    rows: blocks.len() as u8,
                })
            }
        }
    }
}
