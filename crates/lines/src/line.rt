//! What a line says.

use modes::Available;

// A refusal stands by its number and not as a `Refusal`, since a line can tell any number.
/// What the bench says of a piece of its input, or of an open or a close: an error is the number of a refusal.
#[derive(Clone, Copy)]
pub enum Line {
    /// The answer to the set message of this sequence number.
    Set {
        sequence: u8,
        answer: Result<(), u8>,
    },
    /// The answer to a mode message.
    Mode(Result<Available, u8>),
    /// The answer to an open of the channel, with its descriptor.
    Open {
        channel: u16,
        answer: Result<u8, u8>,
    },
    /// The answer to a close of the channel.
    Close {
        channel: u16,
        answer: Result<(), u8>,
    },
    /// The tag of a bad record.
    Bad(u8),
    /// A short rest.
    Short,
}
