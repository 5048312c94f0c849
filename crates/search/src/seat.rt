//! What the seating answers.

use bounded::Bounded;

/// The seat of a row: its number, the place of its set in the descriptor, and the entry that it uses there.
#[derive(Clone, Copy, Default)]
pub struct Seat {
    pub number: u16,
    pub set: u8,
    pub entry: u16,
}

/// The smallest descriptor that carries the rows, and the seats of the rows in their order.
#[derive(Clone, Copy)]
pub struct Seating {
    pub descriptor: u8,
    pub seats: Bounded<Seat, 16>,
}
