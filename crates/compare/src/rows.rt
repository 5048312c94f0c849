//! Draws the rows of a case.

use crate::announced::{Announced, AnnouncedEntry, AnnouncedSet};
use crate::draw::{Width, draw_one, draw_pictures};
use crate::random::Random;
use bounded::Bounded;
use judges::{Capability, Kind, Proposal};

/// The rows of a case.
pub type Rows = Bounded<Proposal, 18>;

// A proposal of any kind and small numbers, lawful or not.
fn draw_stranger(random: &mut Random) -> Proposal {
    Proposal {
        kind: random.below(8) as u8,
        p: random.below(6) as u32,
        q: random.below(3) as u32,
    }
}

// A number from 1 to `most`, or 0 where that is 0.
fn draw_up_to(random: &mut Random, most: u32) -> u32 {
    if most == 0 {
        return 0;
    }
    1 + random.below(most as usize) as u32
}

// Pictures, half the time those that are given.
fn draw_pictures_near(random: &mut Random, pictures: u32) -> u32 {
    if random.below(2) == 0 {
        pictures
    } else {
        draw_pictures(random)
    }
}

// A proposal that keeps to the capability, but perhaps for its pictures.
fn draw_near(random: &mut Random, c: &Capability) -> Proposal {
    let (p, q) = match Kind::try_from(c.kind) {
        Ok(Kind::H261) => (draw_pictures_near(random, c.p), draw_up_to(random, c.q)),
        _ => (draw_up_to(random, c.p), c.q),
    };
    Proposal { kind: c.kind, p, q }
}

// A row that keeps to the entry, if there is one; now and then a stranger.
fn draw_row(random: &mut Random, entry: Option<AnnouncedEntry>) -> Proposal {
    let is_stranger = random.below(32) == 0;
    match entry {
        Some(e) if !is_stranger => draw_near(random, &e.capability),
        _ => draw_stranger(random),
    }
}

// How many rows a case gets: now and then more than any descriptor can carry.
fn draw_count(random: &mut Random, width: Width) -> usize {
    match random.below(32) {
        0 => 17,
        1 => 18,
        _ => match width {
            Width::Narrow => random.below(7),
            Width::Wide => 4 + random.below(8),
        },
    }
}

// Rows that keep to any entries.
fn draw_anyhow(random: &mut Random, announced: &Announced, width: Width) -> Rows {
    let mut rows = Rows::default();
    for _ in 0..draw_count(random, width) {
        let entry = draw_one(random, &announced.entries);
        let _ = rows.push(draw_row(random, entry));
    }
    rows
}

// The entry of one of the members of the set.
fn draw_entry(
    random: &mut Random,
    announced: &Announced,
    set: &AnnouncedSet,
) -> Option<AnnouncedEntry> {
    let number = draw_one(random, &set.members)?;
    announced.entry(number)
}

// How many rows are drawn for a descriptor of so many sets: about as many.
fn draw_count_for(random: &mut Random, sets: usize) -> usize {
    match random.below(8) {
        0 => sets.saturating_add(1),
        1 => sets.saturating_sub(2),
        2 | 3 => sets.saturating_sub(1),
        _ => sets,
    }
}

// Rows that keep to members of the sets of a descriptor, one set after another, from any on.
fn draw_for(random: &mut Random, announced: &Announced, sets: &[AnnouncedSet]) -> Rows {
    let mut rows = Rows::default();
    let start = random.below(10);
    let count = draw_count_for(random, sets.len());
    for set in sets.iter().cycle().skip(start).take(count) {
        let entry = draw_entry(random, announced, set);
        let _ = rows.push(draw_row(random, entry));
    }
    rows
}

/// The rows of a case: half the time such as one of the descriptors should mostly carry.
pub(crate) fn draw_rows(random: &mut Random, announced: &Announced, width: Width) -> Rows {
    match announced.descriptors.get(random.below(5)) {
        Some(d) => draw_for(random, announced, &d.sets),
        None => draw_anyhow(random, announced, width),
    }
}
