//! The calls of a table: made empty, an entry read out, a set message taken.

ghost use Rattle.std.specs.Prelude.{◌≡◌, ◌≤◌, true, false, [], length, MatchResult};
ghost use Rattle.std.specs.List.{list_all};
ghost use Rattle.bounded.specs.Items.{items};
ghost use Rattle.refusals.specs.Checks.{First};
ghost use Rattle.records.specs.Reads.{says};
ghost use Rattle.keyed.specs.Keyed.{at, rising, numbers};
ghost use Rattle.table.specs.Message.{entries_in, all_lawful};
ghost use Rattle.table.specs.Rows.{entry_rows, descriptor_rows};
ghost use Rattle.table.specs.Shape.{is_named, is_shaped, defined};
ghost use Rattle.table.specs.Sets.{entries_of, descriptors_of, standing, set_checks, Done, Sets};

use super::defined::are_defined;
use super::held::{AlternativeSet, Descriptor, Entry};
use super::merge::{descriptors_named, entries_named, merged_descriptors, merged_entries};
use super::standing::Table;
use bounded::Bounded;
use judges::{Capability, Judge};
use keyed::find;
use records::{Cursor, Form, Said, check_message};
use refusals::Refusal;

// Whether each entry of a message is lawful.
fn are_lawful<J: Judge>(judge: &J, mut message: Cursor) -> bool
    ensures { result ≡ all_lawful (J.Judge.lawful judge.now) (entries_in (says message.entry)) }
{
    message.all(|record| match record.said() {
        Said::Entry(_, capability) => judge.is_lawful(&capability),
        _ => true,
    })
}

// The table of lists that are as they must be: refused where a member names no entry.
// Out of line, so that its copies of the table are on the stack only while it runs.
#[inline(never)]
fn table_of(
    entries: &Bounded<Entry, 64>,
    descriptors: &Bounded<Descriptor, 16>,
) -> Result<Table, Refusal>
    requires ordered { rising 0 (numbers (entry_rows (items entries.now))) ≡ true }
    requires arranged { rising 0 (numbers (descriptor_rows (items descriptors.now))) ≡ true }
    requires named { list_all is_named (entry_rows (items entries.now)) ≡ true }
    requires shaped { list_all is_shaped (descriptor_rows (items descriptors.now)) ≡ true }
    ensures { let whole = defined (entry_rows (items entries.now)) (descriptor_rows (items descriptors.now)) in MatchResult result (λ t. (whole ≡ true) × ((t.entries ≡ entries.now) × (t.descriptors ≡ descriptors.now))) (λ k. (k ≡ Refusal.Undefined) × (whole ≡ false)) }
{
    if !are_defined(entries, descriptors) {
        return Err(Refusal::Undefined);
    }
    Ok(Table {
        entries: *entries,
        descriptors: *descriptors,
    })
}

impl Table {
    /// A table in which nothing stands.
    pub fn new() -> Table
        ensures { (entries_of result ≡ []) × (descriptors_of result ≡ []) }
    {
        // Fill values written out, and not defaults: a caller's frame then holds one table, and not three.
        let entry = Entry {
            number: 0,
            capability: Capability {
                kind: 0,
                p: 0,
                q: 0,
            },
        };
        let descriptor = Descriptor {
            number: 0,
            sets: Bounded::new(AlternativeSet {
                members: Bounded::new(0),
            }),
        };
        Table {
            entries: Bounded::new(entry),
            descriptors: Bounded::new(descriptor),
        }
    }

    /// The capability that stands at an entry number.
    pub fn entry(&self, number: u16) -> Option<Capability>
        ensures { result ≡ at (entries_of self.now) number }
    {
        find(&self.entries, number).map(|e| e.capability)
    }

    /// The entries, by rising number.
    pub fn entries(&self) -> &[Entry]
        ensures list { entry_rows result.now ≡ entries_of self.now }
        ensures most { length result.now ≤ 64 }
    {
        &self.entries
    }

    /// The descriptors, by rising number.
    pub fn descriptors(&self) -> &[Descriptor]
        ensures list { descriptor_rows result.now ≡ descriptors_of self.now }
        ensures most { length result.now ≤ 16 }
    {
        &self.descriptors
    }

    /// The table after a set message, or the first refusal in order.
    pub fn after<J: Judge>(&self, judge: &J, message: &[u8]) -> Result<Table, Refusal>
        ensures { MatchResult result (λ t. Done (J.Judge.lawful judge.now) message.now (standing self.now) (standing t)) (λ k. First (set_checks (J.Judge.lawful judge.now) message.now (standing self.now)) k) }
    {
        let records = check_message(Form::Set, message)?;
        if !are_lawful(judge, records) {
            return Err(Refusal::Unlawful);
        }
        let entry_numbers = entries_named(records)?;
        let descriptor_numbers = descriptors_named(records)?;
        let entries = merged_entries(&self.entries, &entry_numbers, records)?;
        let descriptors = merged_descriptors(&self.descriptors, &descriptor_numbers, records)?;
        table_of(&entries, &descriptors)
    }

    /// Takes a set message: answers its sequence number, or the first refusal in order, which leaves the table as it was.
    pub fn set<J: Judge>(&mut self, judge: &J, message: &[u8]) -> Result<u8, Refusal>
        ensures { Sets (J.Judge.lawful judge.now) message.now self.old result self.new }
    {
        let table = self.after(judge, message)?;
        *self = table;
        Ok(message[1])
    }
}
