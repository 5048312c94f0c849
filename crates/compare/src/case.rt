//! One case: the search is asked, and its answer and the scratch are compared.

use crate::announced::Announced;
use crate::brute::{is_carried_in_order, smallest_of, usable};
use crate::notes::is_note_right;
use crate::random::Random;
use crate::tally::{Tally, count};
use judges::{Proposal, StandardJudge};
use refusals::Refusal;
use search::{Found, ROOM, search, smallest};
use table::Table;

// The generator and the tally, and what is announced and its rows, stay parameters: a struct of either would be taken apart again in each function.

// How many rows a descriptor can carry at most.
const MOST_ROWS: usize = 16;

// Puts any octets into the scratch.
fn fill(random: &mut Random, scratch: &mut [u8]) {
    for octet in scratch.iter_mut() {
        *octet = random.octet();
    }
}

// Whether the first octets are zero, as many as are said to be wiped, and the others as before.
fn is_left(before: &[u8], after: &[u8], wiped: usize) -> bool {
    before.iter().zip(after).enumerate().all(|(i, (kept, octet))| {
        let wanted = if i < wiped { 0 } else { *kept };
        *octet == wanted
    })
}

// Counts what the descriptor that carries the rows shows of the mix of cases.
fn count_carried(announced: &Announced, rows: &[Proposal], number: u8, tally: &mut Tally) {
    count(&mut tally.carried);
    if announced.descriptors.iter().any(|d| d.number < number) {
        count(&mut tally.passed_over);
    }
    if let Some(d) = announced.descriptor(number) {
        let masks = usable(&announced.entries, &d, rows);
        if !is_carried_in_order(&masks) {
            count(&mut tally.moved);
        }
    }
}

// Compares what the search found with the second decision.
fn compare(
    found: &Found,
    expected: Option<u8>,
    announced: &Announced,
    rows: &[Proposal],
    tally: &mut Tally,
) {
    match found {
        Found::Carried(number) => {
            tally.expect(expected == Some(*number));
            count_carried(announced, rows, *number, tally);
        }
        Found::Blocked(note) => {
            tally.expect(expected.is_none());
            tally.expect(is_note_right(note, announced, rows));
            count(&mut tally.blocked);
            tally.note_rows = tally.note_rows.saturating_add(note.len() as u64);
        }
    }
}

// What a call answers in scratch of 512 octets and up to 32 more: it leaves the first 512 zero.
fn ask<T, F: FnOnce(&mut [u8]) -> Result<T, Refusal>>(
    random: &mut Random,
    tally: &mut Tally,
    call: F,
) -> Result<T, Refusal>
    requires { F.IsAlwaysCallable call }
{
    let mut scratch = [0u8; 544];
    fill(random, &mut scratch);
    let before = scratch;
    let lent = ROOM + random.below(33);
    let answer = call(&mut scratch[..lent]);
    tally.expect(is_left(&before, &scratch, ROOM));
    answer
}

// Expects that a call in scratch of 511 octets is refused by 1, and leaves the scratch as it was.
fn expect_refused<T: Drop, F: FnOnce(&mut [u8]) -> Result<T, Refusal>>(
    scratch: &mut [u8; 511],
    tally: &mut Tally,
    call: F,
)
    requires { F.IsAlwaysCallable call }
{
    let before = *scratch;
    let answer = call(scratch);
    tally.expect(matches!(answer, Err(refusal) if refusal.number() == 1));
    tally.expect(is_left(&before, scratch, 0));
}

// Asks both in the same scratch, which is too short.
fn ask_short(random: &mut Random, table: &Table, rows: &[Proposal], tally: &mut Tally) {
    let mut scratch = [0u8; 511];
    fill(random, &mut scratch);
    expect_refused(&mut scratch, tally, |scratch| {
        search(&StandardJudge, table, rows, scratch)
    });
    expect_refused(&mut scratch, tally, |scratch| {
        smallest(&StandardJudge, table, rows, scratch)
    });
    count(&mut tally.refused);
}

/// Does one case.
pub(crate) fn examine(
    random: &mut Random,
    table: &Table,
    announced: &Announced,
    rows: &[Proposal],
    tally: &mut Tally,
) {
    let expected = smallest_of(announced, rows);
    count(&mut tally.cases);
    if rows.len() > MOST_ROWS {
        count(&mut tally.crowded);
    }
    let answer = ask(random, tally, |scratch| {
        search(&StandardJudge, table, rows, scratch)
    });
    match answer {
        Ok(found) => compare(&found, expected, announced, rows, tally),
        Err(_) => tally.expect(false),
    }
    let answer = ask(random, tally, |scratch| {
        smallest(&StandardJudge, table, rows, scratch)
    });
    tally.expect(answer == Ok(expected));
    if random.below(16) == 0 {
        ask_short(random, table, rows, tally);
    }
}
