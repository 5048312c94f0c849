//! Why the rows of a board cannot all be seated.

/// The rows of a group, a bit for each, can use fewer sets than they are.
#[derive(Clone, Copy, Debug, PartialEq, Eq)]
pub struct Block {
    pub group: u32,
    pub sets: u8,
}
