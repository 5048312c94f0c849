//! What a mode request answers.

/// The place of a mode in its message, and the smallest descriptor that carries it.
#[derive(Clone, Copy)]
pub struct Available {
    pub place: u8,
    pub descriptor: u8,
}
