//! Lists of what has a number, by rising number: one text for entries, descriptors and channels.

ghost use Rattle.std.specs.Prelude.{◌≡◌, ℕ, ◌<◌, ◌≤◌, ◌↔◌, length, nat_eq, IsOk, OnOk, OnErr};
ghost use Rattle.bounded.specs.Items.{items};
ghost use Rattle.bounded.specs.Numbers.{holds};
ghost use Rattle.keyed.specs.Merge.{find_in, place, putting, keeping};

use bounded::{Bounded, NoRoom, NumberSet};

/// What has a number, by which it stands in a list.
pub trait ByNumber {
    ghost key: { Self → ℕ };

    fn number(&self) -> u16
        ensures { result ≡ key self.now };
}

/// What stands at a number.
pub fn find<T: ByNumber + Copy>(list: &[T], number: u16) -> Option<T>
    ensures { result ≡ find_in T.ByNumber.key list.now number }
{
    list.iter().find(|x| x.number() == number).copied()
}

// How many stand before a number: by `position`, since `partition_point` would ask callers for a list by rising number.
fn place_of<T: ByNumber>(list: &[T], number: u16) -> usize
    ensures at { result ≡ place T.ByNumber.key list.now number }
    ensures most { result ≤ length list.now }
{
    list.iter()
        .position(|x| x.number() >= number)
        .unwrap_or(list.len())
}

/// Puts one at its place by rising number: an error, and nothing changes, where there is no room.
pub fn put<T: ByNumber + Copy, const N: usize>(list: &mut Bounded<T, N>, x: T) -> Result<(), NoRoom>
    ensures variant { IsOk result ↔ (length (items list.old) < N) }
    ensures ok { OnOk result (items list.new ≡ putting T.ByNumber.key x (items list.old)) }
    ensures err { OnErr result (list.new ≡ list.old) }
{
    let at = place_of(list.as_slice(), x.number());
    list.insert(at, x)
}

/// Those that have none of the numbers.
pub fn kept<T: ByNumber + Copy, const N: usize>(
    standing: &Bounded<T, N>,
    named: &NumberSet,
) -> Bounded<T, N>
    ensures { items result ≡ keeping T.ByNumber.key (holds named.now) (items standing.now) }
{
    let mut list = *standing;
    list.retain(|x| !named.contains(x.number()));
    list
}

/// Those that have another number.
pub fn without<T: ByNumber + Copy, const N: usize>(
    list: &Bounded<T, N>,
    number: u16,
) -> Bounded<T, N>
    ensures { items result ≡ keeping T.ByNumber.key (λ n. nat_eq number n) (items list.now) }
{
    let mut left = *list;
    left.retain(|x| x.number() != number);
    left
}
