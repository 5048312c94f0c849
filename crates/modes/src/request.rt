//! The mode request, in lent scratch memory.

ghost use Rattle.std.specs.Prelude.{◌≡◌, MatchResult};
ghost use Rattle.refusals.specs.Checks.{First, Passed};
ghost use Rattle.records.specs.Reads.{says};
ghost use Rattle.table.specs.Sets.{standing, message as message_of};
ghost use Rattle.search.specs.Scratch.{left_over};
ghost use Rattle.modes.specs.Modes.{modes_in, Shaped};
ghost use Rattle.modes.specs.Requests.{FirstCarried, carry_checks, checks_in, mode_checks, Granted};

use crate::available::Available;
use crate::element::elements_after;
use judges::Judge;
use records::{Cursor, Form, Said, check_message};
use refusals::Refusal;
use search::{ROOM, in_scratch, smallest};
use table::Table;

// The judge and the table stay two parameters, as of the search's own calls.

// The first mode that a standing descriptor carries.
fn first_carried<J: Judge>(
    judge: &J,
    table: &Table,
    message: Cursor,
    work: &mut [u8; ROOM],
) -> Result<Available, Refusal>
    requires { Shaped (modes_in (says message)) }
    ensures { MatchResult result (λ a. FirstCarried (J.Judge.covers judge.now) (standing table.now) (modes_in (says message.entry)) a) (λ k. First (carry_checks (J.Judge.covers judge.now) (standing table.now) (modes_in (says message.entry))) k) }
{
    let mut left = message;
    let mut place: u8 = 0;
    // The elements of a mode are read on from where the loop stands.
    while let Some(said) = left.read() {
        if let Said::Mode = said {
            let elements = elements_after(left);
            if let Some(descriptor) = smallest(judge, table, elements.as_slice(), work)? {
                return Ok(Available { place, descriptor });
            }
            place += 1;
        }
    }
    Err(Refusal::ModeUnavailable)
}

// A mode request, with octets to work in.
fn requested<J: Judge>(
    judge: &J,
    table: &Table,
    message: &[u8],
    work: &mut [u8; ROOM],
) -> Result<Available, Refusal>
    ensures { MatchResult result (λ a. Passed (checks_in (J.Judge.covers judge.now) (standing table.now) message.now) × FirstCarried (J.Judge.covers judge.now) (standing table.now) (modes_in (message_of message.now)) a) (λ k. First (checks_in (J.Judge.covers judge.now) (standing table.now) message.now) k) }
{
    let records = check_message(Form::Modes, message)?;
    first_carried(judge, table, records, work)
}

/// The first mode of a message that a standing descriptor carries, or the first refusal in order. Lent fewer than 512 octets of scratch it leaves them as they were, else it zeroes the first 512.
pub fn request_mode<J: Judge>(
    judge: &J,
    table: &Table,
    message: &[u8],
    scratch: &mut [u8],
) -> Result<Available, Refusal>
    ensures scratch { scratch.new ≡ left_over scratch.old }
    ensures answer { MatchResult result (λ a. Granted (J.Judge.covers judge.now) (standing table.now) message.now scratch.old a) (λ k. First (mode_checks (J.Judge.covers judge.now) (standing table.now) message.now scratch.old) k) }
{
    in_scratch(scratch, |work| requested(judge, table, message, work))?
}
