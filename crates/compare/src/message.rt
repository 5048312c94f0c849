//! Set messages, as octets.

use crate::announced::{AnnouncedDescriptor, AnnouncedEntry, AnnouncedSet};
use bounded::Bounded;
use records::Tag;

// How many octets a record has.
const RECORD: usize = 32;

/// A set message under way.
#[derive(Clone, Copy)]
pub struct Message {
    octets: Bounded<u8, 2048>,
}

impl Message {
    /// A message that begins, with its sequence number.
    pub(crate) fn new(sequence: u8) -> Message {
        let mut message = Message {
            octets: Bounded::default(),
        };
        message.write(Tag::Begin, sequence, &[]);
        message
    }

    // Adds a record: its tag, octet 1, the octets from 2 on, and zeros.
    fn write(&mut self, tag: Tag, first: u8, fields: &[u8]) {
        let zeros = [0; RECORD];
        let named = [u8::from(tag), first];
        for octet in named.iter().chain(fields).chain(&zeros).take(RECORD) {
            let _ = self.octets.push(*octet);
        }
    }

    /// Adds an entry.
    pub(crate) fn entry(&mut self, e: &AnnouncedEntry) {
        let [n0, n1] = e.number.to_be_bytes();
        let [p0, p1, p2, p3] = e.capability.p.to_be_bytes();
        let [q0, q1, q2, q3] = e.capability.q.to_be_bytes();
        let fields = [n0, n1, p0, p1, p2, p3, q0, q1, q2, q3];
        self.write(Tag::Entry, e.capability.kind, &fields);
    }

    // Adds an alternative set.
    fn set(&mut self, set: &AnnouncedSet) {
        let mut fields: Bounded<u8, 8> = Bounded::default();
        for number in set.members.iter() {
            for octet in number.to_be_bytes() {
                let _ = fields.push(octet);
            }
        }
        self.write(Tag::Alternatives, set.members.len() as u8, &fields);
    }

    /// Adds a descriptor with its sets.
    pub(crate) fn descriptor(&mut self, d: &AnnouncedDescriptor) {
        self.no_descriptor(d.number);
        for s in d.sets.iter() {
            self.set(s);
        }
    }

    /// Adds a descriptor without sets, which removes the one of its number.
    pub(crate) fn no_descriptor(&mut self, number: u8) {
        self.write(Tag::Descriptor, number, &[]);
    }

    /// Adds the end.
    pub(crate) fn end(&mut self) {
        self.write(Tag::End, 0, &[]);
    }

    /// The octets so far.
    pub(crate) fn octets(&self) -> &[u8] {
        &self.octets
    }
}
