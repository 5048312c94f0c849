//! What an ask hands out, and accept and decline take.

use refusals::Refusal;

/// An ask that is neither accepted nor declined yet. It cannot be let go: it goes to `accept` or `decline`.
pub struct PendingOpen {
    pub(crate) session: u16,
    pub(crate) channel: u16,
}

/// The channel is pending: the pending open, and the smallest descriptor that carries all channels.
pub struct Opened {
    pub pending: PendingOpen,
    pub descriptor: u8,
}

/// A refusal of accept or decline: the pending open comes back.
pub struct HandedBack {
    pub refusal: Refusal,
    pub pending: PendingOpen,
}
