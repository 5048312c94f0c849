//! The checks of a message, each over the whole of it before the next.

ghost use Rattle.std.specs.Prelude.{◌≡◌, ℕ, List, length, MatchResult};
ghost use Rattle.refusals.specs.Checks.{First, Passed};
ghost use Rattle.records.specs.Layout.{fitting};
ghost use Rattle.records.specs.Messages.{limit, message_checks, Orders};
ghost use Rattle.records.specs.Stages.{rest, in_order};
ghost use Rattle.records.specs.Reads.{rows, rows_of};

use super::fields::are_in_range;
use super::held::{Cursor, Form};
use super::order::is_in_order;
use super::stage::Stage;
use refusals::Refusal;

impl Form {
    // The most octets of such a message: 512 records, or 272.
    fn most_octets(self) -> usize
        ensures { result ≡ limit self }
    {
        match self {
            Form::Set => 16384,
            Form::Modes => 8704,
        }
    }

    // Where such a message begins.
    fn start(self) -> Stage
        ensures { (ts : List ℕ) → rest result ts ≡ in_order self ts }
    {
        match self {
            Form::Set => Stage::SetStart,
            Form::Modes => Stage::ModeStart,
        }
    }

    // Whether a message has whole records, at least one, and no more octets than it may have.
    fn is_sized(self, message: &[u8]) -> bool
        ensures { result ≡ fitting (limit self) (length message.now) }
    {
        let octets = message.len();
        octets > 0 && octets % 32 == 0 && octets <= self.most_octets()
    }
}

/// A message to read, or the first refusal in order: its length, the order of its records, their fields.
pub fn check_message(form: Form, message: &[u8]) -> Result<Cursor<'_>, Refusal>
    ensures { MatchResult result (λ c. Passed (message_checks form message.now) × (rows c ≡ rows_of message.now)) (λ k. First (message_checks form message.now) k) }
{
    if !form.is_sized(message) {
        return Err(Refusal::Length);
    }
    let records = Cursor::over(message);
    if !is_in_order(form.start(), records) {
        return Err(Refusal::Order);
    }
    if !are_in_range(records) {
        return Err(Refusal::Field);
    }
    Ok(records)
}

/// The tests of order, tag by tag, are the messages as they are described.
pub fn orders_stand()
    ensures { Orders }
{}
