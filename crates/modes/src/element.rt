//! The elements of a mode, as rows of the search.

ghost use Rattle.std.specs.Prelude.{◌≡◌, ◌≤◌, length};
ghost use Rattle.bounded.specs.Items.{items};
ghost use Rattle.records.specs.Reads.{says};
ghost use Rattle.modes.specs.Modes.{elements_in};
ghost use Rattle.modes.specs.Elements.{rows_from};

use bounded::Bounded;
use judges::Proposal;
use keyed::ByNumber;
use records::{Cursor, Said};
use search::Row;

/// An element of a mode: its place in the mode, from 0, and its proposal.
#[derive(Clone, Copy, Default)]
pub struct Element {
    pub place: u16,
    pub proposal: Proposal,
}

impl Row for Element {
    ghost asks = { λ e. e.proposal };

    fn proposal(&self) -> Proposal {
        self.proposal
    }
}

impl ByNumber for Element {
    ghost key = { λ e. e.place };

    fn number(&self) -> u16 {
        self.place
    }
}

// Apart from table's `sets_after`: one function told the variant by a closure reads no plainer.
/// The elements that follow at once.
pub(crate) fn elements_after(message: Cursor) -> Bounded<Element, 16>
    requires { length (elements_in (says message)) ≤ 16 }
    ensures { items result ≡ rows_from 0 (elements_in (says message.entry)) }
{
    let mut left = message;
    let mut list = Bounded::default();
    while let Some(Said::Element(proposal)) = left.read() {
        let place = list.len() as u16;
        list.push(Element { place, proposal }).unwrap();
    }
    list
}
