//! The seats of rows on the sets of a descriptor.

ghost use Rattle.std.specs.Prelude.{◌≡◌, ℕ, ◌<◌, map, length, MatchOption, IsSomeAnd, ◌≢◌};
ghost use Rattle.bounded.specs.Items.{items};
ghost use Rattle.matching.specs.Calls.{at};
ghost use Rattle.matching.specs.Steps.{Placed};
ghost use Rattle.keyed.specs.Keyed as keyed;
ghost use Rattle.table.specs.Rows.{sets_of};
ghost use Rattle.table.specs.Sets.{entries_of, standing};
ghost use Rattle.search.specs.Answers.{NoneCarries};
ghost use Rattle.search.specs.Carrying.{covering, usable, Carries};
ghost use Rattle.search.specs.Filling.{uses, Covered};
ghost use Rattle.search.specs.Lists.{first_pass};
ghost use Rattle.search.specs.Seats.{Seated, Seats, Sits};
ghost use Rattle.search.specs.Settling.{Standless};

use crate::guard::ROOM;
use crate::row::Row;
use crate::seat::{Seat, Seating};
use crate::settle::arrange;
use bounded::Bounded;
use judges::{Judge, Proposal};
use keyed::ByNumber;
use table::{Descriptor, Table};

// The place of the set that a row holds.
fn held_by(holders: &[u8], row: usize) -> Option<usize>
    ensures { MatchOption result ((s : ℕ) → s < length holders.now → at holders.now s ≢ row) (λ s. (s < length holders.now) × (at holders.now s ≡ row)) }
{
    holders.iter().position(|holder| *holder as usize == row)
}

// The judge and the table stay two parameters, as in the calls.

// The first member of a set that covers a proposal: a loop, since a look-up is taken apart by let-else.
fn first_covering<J: Judge>(
    judge: &J,
    table: &Table,
    members: &[u16],
    proposal: &Proposal,
) -> Option<u16>
    ensures { result ≡ first_pass (λ m. covering (J.Judge.covers judge.now) proposal.now (keyed.at (entries_of table.now) m)) members.now }
{
    for m in members {
        let Some(capability) = table.entry(*m) else {
            continue;
        };
        if judge.does_cover(&capability, proposal) {
            return Some(*m);
        }
    }
    None
}

// The seat of the row that has a place: at the set that it holds.
fn seat_of<J: Judge, R: Row + ByNumber>(
    judge: &J,
    table: &Table,
    descriptor: &Descriptor,
    holders: &[u8],
    row: &R,
    place: usize,
) -> Option<Seat>
    requires { length holders.now ≡ length (sets_of descriptor.now) }
    ensures { MatchOption result (Standless (J.Judge.covers judge.now) (entries_of table.now) (sets_of descriptor.now) (at holders.now) (R.Row.asks row.now) place) (λ w. Sits R.ByNumber.key R.Row.asks (J.Judge.covers judge.now) (entries_of table.now) (sets_of descriptor.now) row.now w × (at holders.now w.set ≡ place)) }
{
    let set = held_by(holders, place)?;
    let proposal = row.proposal();
    let sets = descriptor.sets.as_slice();
    // What a look-up answers is taken apart by let-else.
    let Some(entry) = first_covering(judge, table, sets[set].members.as_slice(), &proposal) else {
        return None;
    };
    Some(Seat {
        number: row.number(),
        set: set as u8,
        entry,
    })
}

// The seats of the rows, at the sets that they hold.
fn seats_of<J: Judge, R: Row + ByNumber>(
    judge: &J,
    table: &Table,
    descriptor: &Descriptor,
    holders: &[u8],
    rows: &[R],
) -> Option<Bounded<Seat, 16>>
    requires size { length holders.now ≡ length (sets_of descriptor.now) }
    requires placed { Placed (uses (usable (J.Judge.covers judge.now) (entries_of table.now)) (sets_of descriptor.now) (map R.Row.asks rows.now)) (length rows.now) (length (sets_of descriptor.now)) (at holders.now) (length rows.now) }
    ensures { IsSomeAnd result (λ s. Seats R.ByNumber.key R.Row.asks (J.Judge.covers judge.now) (entries_of table.now) (sets_of descriptor.now) rows.now (items s)) }
{
    let mut seats = Bounded::default();
    for (place, row) in rows.iter().enumerate() {
        let seat = seat_of(judge, table, descriptor, holders, row, place)?;
        seats.push(seat).unwrap();
    }
    Some(seats)
}

// The seats of the rows on the sets of a descriptor, or none where they do not carry them.
fn seat_on<J: Judge, R: Row + ByNumber>(
    judge: &J,
    table: &Table,
    descriptor: &Descriptor,
    rows: &[R],
    covers: &Bounded<u64, 17>,
    work: &mut [u8; ROOM],
) -> Option<Bounded<Seat, 16>>
    requires { Covered (J.Judge.covers judge.now) (entries_of table.now) (map R.Row.asks rows.now) (items covers.now) }
    ensures { let carried = Carries (usable (J.Judge.covers judge.now) (entries_of table.now)) (sets_of descriptor.now) (map R.Row.asks rows.now) in MatchOption result (carried → ⊥) (λ s. carried × Seats R.ByNumber.key R.Row.asks (J.Judge.covers judge.now) (entries_of table.now) (sets_of descriptor.now) rows.now (items s)) }
{
    let holders = arrange(table, descriptor, covers, work).ok()?;
    seats_of(judge, table, descriptor, holders, rows)
}

/// The seats of the rows on the first descriptor that carries them.
pub(crate) fn seat_each<J: Judge, R: Row + ByNumber>(
    judge: &J,
    table: &Table,
    rows: &[R],
    covers: &Bounded<u64, 17>,
    work: &mut [u8; ROOM],
) -> Option<Seating>
    requires { Covered (J.Judge.covers judge.now) (entries_of table.now) (map R.Row.asks rows.now) (items covers.now) }
    ensures { MatchOption result (NoneCarries (J.Judge.covers judge.now) (standing table.now) (map R.Row.asks rows.now)) (λ s. Seated R.ByNumber.key R.Row.asks (J.Judge.covers judge.now) (standing table.now) rows.now s) }
{
    // A loop, since each turn works in the lent octets: of a closure's writes nothing is known.
    for descriptor in table.descriptors() {
        if let Some(seats) = seat_on(judge, table, descriptor, rows, covers, work) {
            return Some(Seating {
                descriptor: descriptor.number,
                seats,
            });
        }
    }
    None
}
