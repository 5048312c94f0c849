//! A channel as a row: it asks by its proposal, and stands by its number.

use crate::words::Channel;
use judges::Proposal;
use keyed::ByNumber;
use search::Row;

impl Row for Channel {
    ghost asks = { λ c. c.proposal };

    fn proposal(&self) -> Proposal {
        self.proposal
    }
}

impl ByNumber for Channel {
    ghost key = { λ c. c.number };

    fn number(&self) -> u16 {
        self.number
    }
}
