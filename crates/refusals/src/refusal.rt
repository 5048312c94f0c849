//! The refusals and their numbers.

ghost use Rattle.std.specs.Prelude.{◌≡◌};
ghost use Rattle.refusals.specs.Number.{number};

/// Why a call is refused.
#[derive(Clone, Copy, PartialEq, Eq, Debug)]
pub enum Refusal {
    /// The scratch memory that is lent has fewer than 512 octets.
    Scratch,
    /// The note of an ask, or the list of a seating, has fewer than 16 rows.
    List,
    /// The message has no octet, no whole records, or too many.
    Length,
    /// The records do not stand in the order of the message.
    Order,
    /// A field is out of range, or an octet without a name is not zero.
    Field,
    /// A capability is not lawful.
    Unlawful,
    /// An entry or a descriptor is named twice.
    Twice,
    /// The table would have more than 64 entries.
    Entries,
    /// The table would have more than 16 descriptors.
    Descriptors,
    /// A set of the table would name an undefined entry.
    Undefined,
    /// No descriptor of the table after the set carries the channels held.
    TooNarrow,
    /// The number of the asked channel is 0.
    Zero,
    /// A channel of the asked number is held.
    InUse,
    /// No entry covers the proposal: dataTypeNotSupported.
    NotSupported,
    /// No standing descriptor carries the held channels and the asked one: dataTypeNotAvailable. The note has so many rows.
    NotAvailable { rows: u8 },
    /// The pending open is of another session, or no channel of the number is held.
    Unknown,
    /// The channel is in the other state.
    WrongState,
    /// No standing descriptor carries any of the modes.
    ModeUnavailable,
}

impl Refusal {
    // A method and no `From`, which is for what keeps the value: the number loses the rows of `NotAvailable`.
    /// The number that the host is told.
    pub fn number(self) -> u8
        ensures { result ≡ number self }
    {
        match self {
            Refusal::Scratch => 1,
            Refusal::List => 2,
            Refusal::Length => 3,
            Refusal::Order => 4,
            Refusal::Field => 5,
            Refusal::Unlawful => 6,
            Refusal::Twice => 7,
            Refusal::Entries => 8,
            Refusal::Descriptors => 9,
            Refusal::Undefined => 10,
            Refusal::TooNarrow => 11,
            Refusal::Zero => 12,
            Refusal::InUse => 13,
            Refusal::NotSupported => 14,
            Refusal::NotAvailable { rows: _ } => 15,
            Refusal::Unknown => 16,
            Refusal::WrongState => 17,
            Refusal::ModeUnavailable => 18,
        }
    }
}
