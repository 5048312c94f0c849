//! Draws capabilities, alternative sets, descriptors and whole tables.

use crate::announced::{Announced, AnnouncedDescriptor, AnnouncedEntry, AnnouncedSet};
use crate::random::Random;
use bounded::Bounded;
use judges::{Capability, Kind};

/// How many alternative sets the descriptors of a table have at most.
#[derive(Clone, Copy)]
pub enum Width {
    /// 5 sets.
    Narrow,
    /// 10 sets.
    Wide,
}

/// A kind.
pub(crate) fn draw_kind(random: &mut Random) -> Kind {
    match random.below(8) {
        0 | 1 => Kind::G711ALaw,
        2 => Kind::G711MuLaw,
        3 | 4 => Kind::G7231,
        5 | 6 => Kind::H261,
        _ => Kind::T120,
    }
}

/// Picture intervals of CIF and QCIF, each 0 to 2, not both 0.
pub(crate) fn draw_pictures(random: &mut Random) -> u32 {
    let cif = random.below(3) as u32;
    let qcif = random.below(3) as u32;
    if cif == 0 && qcif == 0 {
        1
    } else {
        16 * cif + qcif
    }
}

/// A lawful capability of this kind, with small numbers.
pub(crate) fn draw_capability(random: &mut Random, kind: Kind) -> Capability {
    let frames = 1 + random.below(4) as u32;
    let (p, q) = match kind {
        Kind::G711ALaw | Kind::G711MuLaw | Kind::T120 => (frames, 0),
        Kind::G7231 => (frames, random.below(2) as u32),
        Kind::H261 => (draw_pictures(random), frames),
    };
    Capability {
        kind: u8::from(kind),
        p,
        q,
    }
}

/// One of the items, where there are any.
pub(crate) fn draw_one<T: Copy>(random: &mut Random, items: &[T]) -> Option<T> {
    if items.is_empty() {
        return None;
    }
    items.get(random.below(items.len())).copied()
}

// How many members a set gets: mostly few, so that sets differ.
fn draw_member_count(random: &mut Random) -> usize {
    match random.below(8) {
        0 => 4,
        1 => 3,
        2 | 3 => 2,
        _ => 1,
    }
}

// An alternative set of 1 to 4 of the entries, some of them perhaps twice.
fn draw_set(random: &mut Random, entries: &[AnnouncedEntry]) -> AnnouncedSet {
    let mut members = Bounded::default();
    for _ in 0..draw_member_count(random) {
        if let Some(e) = draw_one(random, entries) {
            let _ = members.push(e.number);
        }
    }
    AnnouncedSet { members }
}

// How many sets a descriptor gets.
fn draw_set_count(random: &mut Random, width: Width) -> usize {
    match width {
        Width::Narrow => 1 + random.below(5).max(random.below(5)),
        Width::Wide => 6 + random.below(5),
    }
}

/// A descriptor of this number, with at least one set of the entries.
pub(crate) fn draw_descriptor(
    random: &mut Random,
    entries: &[AnnouncedEntry],
    number: u8,
    width: Width,
) -> AnnouncedDescriptor {
    let mut sets = Bounded::default();
    for _ in 0..draw_set_count(random, width) {
        let _ = sets.push(draw_set(random, entries));
    }
    AnnouncedDescriptor { number, sets }
}

// A descriptor number: one of the first few, or the last of all.
fn draw_number(random: &mut Random) -> u8 {
    match random.below(16) {
        0 => 255,
        n => n as u8,
    }
}

// A kind that is mostly the usual one, so that several rows want the same sets.
fn draw_mostly(random: &mut Random, usual: Kind) -> Kind {
    if random.below(3) == 0 {
        draw_kind(random)
    } else {
        usual
    }
}

// Draws 1 to 8 entries with numbers of their own.
fn draw_entries(random: &mut Random, announced: &mut Announced) {
    let usual = draw_kind(random);
    for _ in 0..1 + random.below(8) {
        let number = 1 + random.below(1000) as u16;
        if announced.entry(number).is_none() {
            let kind = draw_mostly(random, usual);
            let capability = draw_capability(random, kind);
            let _ = announced
                .entries
                .push(AnnouncedEntry { number, capability });
        }
    }
}

// How many descriptors are drawn: seldom none.
fn draw_descriptor_count(random: &mut Random) -> usize {
    match random.below(16) {
        0 => 0,
        n => 1 + n % 4,
    }
}

// Draws 0 to 4 descriptors with numbers of their own, in no order.
fn draw_descriptors(random: &mut Random, announced: &mut Announced, width: Width) {
    for _ in 0..draw_descriptor_count(random) {
        let number = draw_number(random);
        if announced.descriptor(number).is_none() {
            let d = draw_descriptor(random, &announced.entries, number, width);
            let _ = announced.descriptors.push(d);
        }
    }
}

/// A whole table.
pub(crate) fn draw_table(random: &mut Random, width: Width) -> Announced {
    let mut announced = Announced::default();
    draw_entries(random, &mut announced);
    draw_descriptors(random, &mut announced, width);
    announced
}
