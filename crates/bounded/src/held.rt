//! What a bounded list and a set of numbers hold.

ghost use Rattle.std.specs.Prelude.{◌≡◌, ◌≤◌, length, ⊤};

use std::alloc::AllocError;

// A list of its own, seen through `items`: a list on the heap is against the project's rules, and a `Model` that is `Copy` would show its spare places too.
/// A list of at most N values, held in place.
#[derive(Copy)]
pub struct Bounded<T, const N: usize> {
    pub(crate) at: [T; N],
    pub(crate) len: usize,
    ghost ok: { (length at ≡ N) × (len ≤ N) },
}

// By hand, since `Clone` is not derived for a generic struct with a ghost field.
impl<T: Copy, const N: usize> Clone for Bounded<T, N> {
    ghost is_clone = { λ x y. y ≡ x };

    ghost is_infallible = { λ _. ⊤ };

    fn clone(&self) -> Result<Bounded<T, N>, AllocError> {
        Ok(*self)
    }
}

/// There was no room for one more.
#[derive(Clone, Copy, PartialEq, Eq, Debug)]
pub struct NoRoom;

/// A set of 16-bit numbers: a bit for each.
#[derive(Clone, Copy)]
pub struct NumberSet {
    pub(crate) words: [u64; 1024],
    ghost sized: { length words ≡ 1024 },
}
