//! What the search finds.

use bounded::Bounded;

/// Why a descriptor does not carry the rows: a group of them, a bit for each place, and how many of its sets some of the group can use.
#[derive(Clone, Copy, Default)]
pub struct NoteRow {
    pub descriptor: u8,
    pub group: u32,
    pub sets: u8,
}

// An enum of its own: it stands in a Result, and a Result in a Result reads worse.
/// The smallest descriptor that carries the rows; or a row of a note for each standing descriptor, by rising number.
#[derive(Clone, Copy)]
pub enum Found {
    Carried(u8),
    Blocked(Bounded<NoteRow, 16>),
}
