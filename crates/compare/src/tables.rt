//! One table: it is announced, perhaps changed, and several cases are done on it.

use crate::announced::Announced;
use crate::case::examine;
use crate::draw::{Width, draw_capability, draw_descriptor, draw_kind, draw_table};
use crate::message::Message;
use crate::random::Random;
use crate::rows::draw_rows;
use crate::tally::{Tally, count};
use judges::StandardJudge;
use table::Table;

// How many cases are done on a table.
const CASES: usize = 4;

// Ends the message and gives it to the table, which has to take it.
fn give(table: &mut Table, message: &mut Message, sequence: u8, tally: &mut Tally) {
    message.end();
    tally.expect(table.set(&StandardJudge, message.octets()) == Ok(sequence));
    count(&mut tally.messages);
}

// Announces all at once.
fn announce(random: &mut Random, table: &mut Table, announced: &Announced, tally: &mut Tally) {
    let sequence = random.octet();
    let mut message = Message::new(sequence);
    for e in announced.entries.iter() {
        message.entry(e);
    }
    for d in announced.descriptors.iter() {
        message.descriptor(d);
    }
    give(table, &mut message, sequence, tally);
}

// Gives one of the entries another capability.
fn change_entry(random: &mut Random, announced: &mut Announced, message: &mut Message) {
    let place = random.below(8);
    if let Some(mut e) = announced.entries.get(place) {
        let kind = draw_kind(random);
        e.capability = draw_capability(random, kind);
        let _ = announced.entries.set(place, e);
        message.entry(&e);
    }
}

// Replaces or removes one of the descriptors.
fn change_descriptor(
    random: &mut Random,
    announced: &mut Announced,
    message: &mut Message,
    width: Width,
) {
    let place = random.below(4);
    let Some(old) = announced.descriptors.get(place) else {
        return;
    };
    if random.below(3) == 0 {
        let _ = announced.descriptors.remove(place);
        message.no_descriptor(old.number);
    } else {
        let d = draw_descriptor(random, &announced.entries, old.number, width);
        let _ = announced.descriptors.set(place, d);
        message.descriptor(&d);
    }
}

// Announces a change of what stands.
fn change(
    random: &mut Random,
    table: &mut Table,
    announced: &mut Announced,
    width: Width,
    tally: &mut Tally,
) {
    let sequence = random.octet();
    let mut message = Message::new(sequence);
    change_entry(random, announced, &mut message);
    change_descriptor(random, announced, &mut message, width);
    give(table, &mut message, sequence, tally);
}

// One table in four has descriptors of many sets.
fn draw_width(random: &mut Random) -> Width {
    if random.below(4) == 0 {
        Width::Wide
    } else {
        Width::Narrow
    }
}

/// Does one table.
pub(crate) fn examine_table(random: &mut Random, tally: &mut Tally) {
    let width = draw_width(random);
    let mut announced = draw_table(random, width);
    let mut table = Table::new();
    announce(random, &mut table, &announced, tally);
    if random.below(3) == 0 {
        change(random, &mut table, &mut announced, width, tally);
    }
    count(&mut tally.tables);
    for _ in 0..CASES {
        let rows = draw_rows(random, &announced, width);
        examine(random, &table, &announced, &rows, tally);
    }
}
