//! Reads an open record or a close record. Their tags are known before, and not looked at.

ghost use Rattle.std.specs.Prelude.{◌≡◌, true, false, MatchOption};
ghost use Rattle.orders.specs.Orders.{channel_in, proposal_in, is_open_in_range, is_close_in_range};

use judges::Proposal;
use records::Record;

/// The channel that an open record or a close record names, also where it is not in range.
pub fn channel_of(octets: &[u8; 32]) -> u16
    ensures { result ≡ channel_in octets.now }
{
    Record::from(octets).number()
}

/// What an open record proposes, or none where it is not in range: an octet past q is not zero.
pub fn open_proposal(octets: &[u8; 32]) -> Option<Proposal>
    ensures { MatchOption result (is_open_in_range octets.now ≡ false) (λ p. (is_open_in_range octets.now ≡ true) × (p ≡ proposal_in octets.now)) }
{
    let record = Record::from(octets);
    record.is_zero_from(12).then_some(record.proposal())
}

/// Whether a close record is in range: each octet but the tag and the channel is zero.
pub fn close_in_range(octets: &[u8; 32]) -> bool
    ensures { result ≡ is_close_in_range octets.now }
{
    let record = Record::from(octets);
    record.second() == 0 && record.is_zero_from(4)
}
