//! The lists after a set message.

ghost use Rattle.std.specs.Prelude.{◌≡◌, ℕ, ◌<◌, true, List, [], ◌∷◌, map, take, length, MatchResult};
ghost use Rattle.std.specs.Option.{option_map};
ghost use Rattle.bounded.specs.Items.{items};
ghost use Rattle.bounded.specs.Numbers.{holds};
ghost use Rattle.records.specs.Layout.{Rec};
ghost use Rattle.records.specs.Reads.{says, rec};
ghost use Rattle.keyed.specs.Keyed.{among, mentioned};
ghost use Rattle.keyed.specs.Merge.{keeping};
ghost use Rattle.table.specs.Message.{entries_in, descriptors_in, following, narrow};
ghost use Rattle.table.specs.Parts.{Entries, Descriptors, numbers_in};
ghost use Rattle.table.specs.Rows.{members_of, entry_row, descriptor_row};
ghost use Rattle.table.specs.Turns.{Lists, Distinct, Brings, Places, Merges};

use super::held::{AlternativeSet, Descriptor, Entry};
use bounded::{Bounded, NumberSet};
use keyed::{ByNumber, kept, put};
use records::{Cursor, Said};
use refusals::Refusal;

// The numbers that the records of a message name: refused where one is named twice.
// Out of line, so that the set which it fills is on the stack only while it runs.
#[inline(never)]
fn numbers_named<F: Fn(Said) -> Option<u16>>(
    message: Cursor,
    number: F,
) -> Result<NumberSet, Refusal>
    requires { F.IsAlwaysCallable number }
    ensures { (numbers : List Rec → List ℕ) → Lists (F.post number) numbers → Distinct (numbers (says message.entry)) result }
{
    let mut named = NumberSet::new();
    // A loop, since it fills a set: a chain reads no plainer.
    for record in message {
        if let Some(n) = number(record.said()) {
            if !named.insert(n) {
                return Err(Refusal::Twice);
            }
        }
    }
    Ok(named)
}

/// The entry numbers that a message names: refused where it names one twice.
pub(crate) fn entries_named(message: Cursor) -> Result<NumberSet, Refusal>
    ensures { Distinct (numbers_in Entries (says message.entry)) result }
{
    numbers_named(message, |said| match said {
        Said::Entry(number, _) | Said::Removed(number) => Some(number),
        _ => None,
    })
}

/// The descriptor numbers that a message names: refused where it names one twice.
pub(crate) fn descriptors_named(message: Cursor) -> Result<NumberSet, Refusal>
    ensures { Distinct (numbers_in Descriptors (says message.entry)) result }
{
    numbers_named(message, |said| match said {
        Said::Descriptor(number) => Some(u16::from(number)),
        _ => None,
    })
}

// The list after a set message, by rising number: what it does not name, and each item that is read of it. Refused for `full` where they are too many.
fn merged<T: ByNumber + Copy, const N: usize, F: Fn(Said, Cursor) -> Option<T>>(
    standing: &Bounded<T, N>,
    named: &NumberSet,
    message: Cursor,
    item: F,
    full: Refusal,
) -> Result<Bounded<T, N>, Refusal>
    requires { F.IsAlwaysCallable item }
    ensures { let reached = Places T.ByNumber.key (F.post item) (says message.entry) (keeping T.ByNumber.key (holds named.now) (items standing.now)) in MatchResult result (λ b. reached [] (items b)) (λ k. (k ≡ full) × ((rs : List Rec) × (xs : List T) × (N < length xs) × reached rs xs)) }
{
    let mut list = kept(standing, named);
    let mut left = message;
    // By the cursor, since an item can go on in the records that are left.
    while let Some(said) = left.read() {
        let Some(x) = item(said, left) else {
            continue;
        };
        put(&mut list, x).or(Err(full))?;
    }
    Ok(list)
}

/// The entries after a set message: refused where they are too many.
pub(crate) fn merged_entries(
    standing: &Bounded<Entry, 64>,
    named: &NumberSet,
    message: Cursor,
) -> Result<Bounded<Entry, 64>, Refusal>
    requires { (n : ℕ) → holds named.now n ≡ among n (mentioned (entries_in (says message))) }
    ensures { Merges entry_row (entries_in (says message.entry)) standing.now Refusal.Entries result }
{
    let entry = |said: Said, _after: Cursor| match said {
        Said::Entry(number, capability) => Some(Entry { number, capability }),
        _ => None,
    };
    merged(standing, named, message, entry, Refusal::Entries)
}

// The alternative sets that follow at once, 16 of them at most.
// Apart from the elements of a mode: one function told the variant by a closure reads no plainer.
fn sets_after(message: Cursor) -> Bounded<AlternativeSet, 16>
    ensures { map members_of (items result) ≡ take 16 (following (says message.entry)) }
{
    let mut left = message;
    let mut list = Bounded::default();
    while let Some(Said::Alternatives(members)) = left.read() {
        // A set past the 16th is not taken.
        let _ = list.push(AlternativeSet { members });
    }
    list
}

// The descriptor that a record brings, with the alternative sets that follow it.
fn descriptor_in(said: Said, after: Cursor) -> Option<Descriptor>
    ensures { narrow (rec said ∷ says after.entry) ≡ true → Brings descriptors_in (rec said) (says after.entry) (option_map descriptor_row result) }
{
    let Said::Descriptor(number) = said else {
        return None;
    };
    let sets = sets_after(after);
    if sets.is_empty() {
        return None;
    }
    Some(Descriptor { number, sets })
}

/// The descriptors after a set message: refused where they are too many.
pub(crate) fn merged_descriptors(
    standing: &Bounded<Descriptor, 16>,
    named: &NumberSet,
    message: Cursor,
) -> Result<Bounded<Descriptor, 16>, Refusal>
    requires marks { (n : ℕ) → holds named.now n ≡ among n (mentioned (descriptors_in (says message))) }
    requires narrow_sets { narrow (says message) ≡ true }
    ensures { Merges descriptor_row (descriptors_in (says message.entry)) standing.now Refusal.Descriptors result }
{
    merged(
        standing,
        named,
        message,
        descriptor_in,
        Refusal::Descriptors,
    )
}
