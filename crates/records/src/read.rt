//! Reading: the next record, its fields, and what it says.

ghost use Rattle.std.specs.Prelude.{◌≡◌, ◌+◌, ◌<◌, min, [], ◌∷◌, MatchOption, slice_index};
ghost use Rattle.std.specs.Iterator.{YieldsFirstBy, item_count};
ghost use Rattle.bounded.specs.Items.{items};
ghost use Rattle.records.specs.Layout.{be16, be32, shorts, rec_of};
ghost use Rattle.records.specs.Reads.{octets, rows, says, rec, rows_of};

use super::held::{Cursor, Record, Said};
use super::tag::{Tag, UnknownTag};
use bounded::Bounded;
use judges::{Capability, Proposal};

impl<'a> Cursor<'a> {
    pub fn over(message: &'a [u8]) -> Cursor<'a>
        ensures { rows result ≡ rows_of message.now }
    {
        Cursor { rest: message }
    }

    /// What the next record says.
    pub fn read(&mut self) -> Option<Said>
        ensures { MatchOption result ((says self.old ≡ []) × (says self.new ≡ [])) (λ x. says self.old ≡ rec x ∷ says self.new) }
    {
        Some(self.next()?.said())
    }
}

/// The records that are left, while there is a whole one.
impl<'a> Iterator for Cursor<'a> {
    type Item = Record<'a>;

    ghost next_gives = { YieldsFirstBy octets rows };

    ghost remaining = { item_count rows };

    #[tactic(auto, using(crate::proofs::Rows::rows_none, crate::proofs::Rows::rows_more))]
    fn next(&mut self) -> Option<Record<'a>> {
        let (front, back) = self.rest.split_first_chunk::<32>()?;
        self.rest = back;
        Some(Record { octets: front })
    }
}

impl<'a> From<&'a [u8; 32]> for Record<'a> {
    ghost from_gives = { λ all made. octets made ≡ all.now };

    fn from(octets: &'a [u8; 32]) -> Record<'a> {
        Record { octets }
    }
}

impl Record<'_> {
    pub fn tag(&self) -> u8
        ensures { result ≡ slice_index (octets self.now) 0 }
    {
        self.octets[0]
    }

    /// The octet after the tag: a kind, a count or the number of a set or descriptor.
    pub fn second(&self) -> u8
        ensures { result ≡ slice_index (octets self.now) 1 }
    {
        self.octets[1]
    }

    /// The 16-bit number after these two: of an entry or a channel.
    pub fn number(&self) -> u16
        ensures { result ≡ be16 (octets self.now) 2 }
    {
        u16::from_be_bytes([self.octets[2], self.octets[3]])
    }

    // The 32-bit number at a place.
    fn long(&self, at: usize) -> u32
        requires { at + 3 < 32 }
        ensures { result ≡ be32 (octets self.now) at }
    {
        let o = self.octets;
        u32::from_be_bytes([o[at], o[at + 1], o[at + 2], o[at + 3]])
    }

    /// The proposal that it holds: a kind, p and q.
    pub fn proposal(&self) -> Proposal
        ensures { result ≡ record { kind = slice_index (octets self.now) 1; p = be32 (octets self.now) 4; q = be32 (octets self.now) 8 } }
    {
        Proposal {
            kind: self.second(),
            p: self.long(4),
            q: self.long(8),
        }
    }

    // The capability that it holds, where a proposal stands too.
    fn capability(&self) -> Capability
        ensures { result ≡ record { kind = slice_index (octets self.now) 1; p = be32 (octets self.now) 4; q = be32 (octets self.now) 8 } }
    {
        Capability::from(self.proposal())
    }

    // The members of an alternative set, 15 where the count is above that.
    pub(crate) fn members(&self) -> Bounded<u16, 15>
        ensures { items result ≡ shorts (min (slice_index (octets self.now) 1) 15) 2 (octets self.now) }
    {
        let mut list = Bounded::default();
        let octets = self.octets;
        let (pairs, _) = octets.as_chunks::<2>();
        for pair in pairs.iter().skip(1).take(usize::from(self.second())) {
            list.push(u16::from_be_bytes(*pair)).unwrap();
        }
        list
    }

    #[tactic(auto, using(crate::proofs::Tags::says_other))]
    pub fn said(&self) -> Said
        ensures { rec result ≡ rec_of (octets self.now) }
    {
        match Tag::try_from(self.tag()) {
            Ok(Tag::Begin) => Said::Begin(self.second()),
            Ok(Tag::Entry) => Said::Entry(self.number(), self.capability()),
            Ok(Tag::Removed) => Said::Removed(self.number()),
            Ok(Tag::Descriptor) => Said::Descriptor(self.second()),
            Ok(Tag::Alternatives) => Said::Alternatives(self.members()),
            Ok(Tag::End) => Said::End,
            Ok(Tag::Mode) => Said::Mode,
            Ok(Tag::Element) => Said::Element(self.proposal()),
            Err(UnknownTag(tag)) => Said::Other(tag),
        }
    }
}
