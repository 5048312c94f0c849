//! The calls of the search, in lent scratch memory.

ghost use Rattle.std.specs.Prelude.{◌≡◌, map, MatchResult};
ghost use Rattle.refusals.specs.Checks.{First, Passed};
ghost use Rattle.table.specs.Sets.{standing};
ghost use Rattle.search.specs.Answers.{Answer, Outcome};
ghost use Rattle.search.specs.Seats.{SeatingOf};
ghost use Rattle.search.specs.Scratch.{left_over, scratch_checks};

use crate::cover::cover;
use crate::each::search_each;
use crate::found::Found;
use crate::guard::{ROOM, in_scratch};
use crate::row::Row;
use crate::seat::Seating;
use crate::seats::seat_each;
use judges::Judge;
use keyed::ByNumber;
use refusals::Refusal;
use table::Table;

// How many rows are looked at: one more than a descriptor can have sets.
const MOST: usize = 17;

// The judge and the table stay two parameters: in a struct, each contract would name them through it.

// What is found of the rows, each put to the judge once with each entry: of more than 17, the first 17 show that no descriptor carries them.
fn find<J: Judge, R: Row>(judge: &J, table: &Table, rows: &[R], work: &mut [u8; ROOM]) -> Found
    ensures { Outcome (J.Judge.covers judge.now) (standing table.now) (map R.Row.asks rows.now) result }
{
    let covers = cover(judge, table, &rows[..rows.len().min(MOST)]);
    search_each(table, &covers, work)
}

/// The smallest descriptor that carries the rows, or a row of a note for each that stands.
pub fn search<J: Judge, R: Row>(
    judge: &J,
    table: &Table,
    rows: &[R],
    scratch: &mut [u8],
) -> Result<Found, Refusal>
    ensures scratch { scratch.new ≡ left_over scratch.old }
    ensures answer { MatchResult result (λ f. Passed (scratch_checks scratch.old) × Outcome (J.Judge.covers judge.now) (standing table.now) (map R.Row.asks rows.now) f) (λ k. First (scratch_checks scratch.old) k) }
{
    in_scratch(scratch, |work| find(judge, table, rows, work))
}

/// The smallest descriptor that carries the rows, or none.
pub fn smallest<J: Judge, R: Row>(
    judge: &J,
    table: &Table,
    rows: &[R],
    scratch: &mut [u8],
) -> Result<Option<u8>, Refusal>
    ensures scratch { scratch.new ≡ left_over scratch.old }
    ensures answer { MatchResult result (λ o. Passed (scratch_checks scratch.old) × Answer (J.Judge.covers judge.now) (standing table.now) (map R.Row.asks rows.now) o) (λ k. First (scratch_checks scratch.old) k) }
{
    match search(judge, table, rows, scratch)? {
        Found::Carried(descriptor) => Ok(Some(descriptor)),
        Found::Blocked(_) => Ok(None),
    }
}

// The seats of any number of rows: more than 17 no descriptor carries.
fn seat_all<J: Judge, R: Row + ByNumber>(
    judge: &J,
    table: &Table,
    rows: &[R],
    work: &mut [u8; ROOM],
) -> Option<Seating>
    ensures { SeatingOf R.ByNumber.key R.Row.asks (J.Judge.covers judge.now) (standing table.now) rows.now result }
{
    if rows.is_empty() || rows.len() > MOST {
        return None;
    }
    let covers = cover(judge, table, rows);
    seat_each(judge, table, rows, &covers, work)
}

/// The seats of the rows on the smallest descriptor that carries them; none where there are no rows, or no descriptor carries them.
pub fn seating<J: Judge, R: Row + ByNumber>(
    judge: &J,
    table: &Table,
    rows: &[R],
    scratch: &mut [u8],
) -> Result<Option<Seating>, Refusal>
    ensures scratch { scratch.new ≡ left_over scratch.old }
    ensures answer { MatchResult result (λ o. Passed (scratch_checks scratch.old) × SeatingOf R.ByNumber.key R.Row.asks (J.Judge.covers judge.now) (standing table.now) rows.now o) (λ k. First (scratch_checks scratch.old) k) }
{
    in_scratch(scratch, |work| seat_all(judge, table, rows, work))
}
