//! The channels held: at most 16, by rising number, so that no number is held twice.

ghost use Rattle.std.specs.Prelude.{◌≡◌, ◌≤◌, true, length};
ghost use Rattle.bounded.specs.Items.{items};
ghost use Rattle.keyed.specs.Keyed.{rising, numbers};
ghost use Rattle.channels.specs.Holdings.{channel_rows};

use crate::words::Channel;
use bounded::Bounded;

/// At most 16 channels, by rising number; the room has a place more, for one that is asked for.
#[derive(Clone, Copy)]
pub struct Channels {
    pub(crate) list: Bounded<Channel, 17>,
    ghost few: { length (items list) ≤ 16 },
    ghost ordered: { rising 0 (numbers (channel_rows (items list))) ≡ true },
}
