//! The operations of a bounded list.

#![tactic(auto, using(crate::proofs::Most::items_length), unfolding(crate::specs::Items::items))]

ghost use Rattle.std.specs.Prelude.{◌≡◌, ◌+◌, ◌<◌, ◌≤◌, ◌↔◌, ◌==◌, [], ◌∷◌, ◌++◌, length, IsOk, OnOk, OnErr, IfNone, slice_get, slice_set, insert, remove};
ghost use Rattle.std.specs.Fn.{CalledAt};
ghost use Rattle.std.specs.List.Retain.{IsFiltered};
ghost use Rattle.bounded.specs.Items.{items};

use super::held::{Bounded, NoRoom};
use std::ops::DerefSlice;

impl<T: Copy + Default, const N: usize> Default for Bounded<T, N> {
    ghost is_default = { λ list. items list ≡ [] };

    fn default() -> Bounded<T, N> {
        Bounded::new(T::default())
    }
}

impl<T: Copy, const N: usize> DerefSlice for Bounded<T, N> {
    type Elem = T;

    ghost deref_gives = { λ list xs. (xs ≡ items list) × (length xs ≤ N) };

    fn deref(&self) -> &[T] {
        self.as_slice()
    }
}

impl<T: Copy, const N: usize> Bounded<T, N> {
    /// An empty list: `fill` stands in the places that hold no item.
    pub fn new(fill: T) -> Bounded<T, N>
        ensures { items result ≡ [] }
    {
        Bounded {
            at: [fill; N],
            len: 0,
        }
    }

    pub fn len(&self) -> usize
        ensures count { result ≡ length (items self.now) }
        ensures most { result ≤ N }
    {
        self.len
    }

    pub fn is_empty(&self) -> bool
        ensures { result ≡ (length (items self.now) == 0) }
    {
        self.len == 0
    }

    /// Puts x after the last item: an error, and nothing changes, where there is no room.
    pub fn push(&mut self, x: T) -> Result<(), NoRoom>
        ensures variant { IsOk result ↔ (length (items self.old) < N) }
        ensures ok { OnOk result (items self.new ≡ items self.old ++ x ∷ []) }
        ensures len { length (items self.old) < N → length (items self.new) ≡ length (items self.old) + 1 }
        ensures err { OnErr result (self.new ≡ self.old) }
    {
        let len = self.len;
        if len >= N {
            return Err(NoRoom);
        }
        self.at[len] = x;
        self.len = len + 1;
        Ok(())
    }

    pub fn get(&self, i: usize) -> Option<T>
        ensures { result ≡ slice_get (items self.now) i }
    {
        self.as_slice().get(i).copied()
    }

    /// Puts x in place of the item at i, and returns that item.
    #[tactic(auto, using(crate::proofs::Edits::edits), unfolding(crate::specs::Items::items))]
    pub fn set(&mut self, i: usize, x: T) -> Option<T>
        ensures list { items self.new ≡ slice_set (items self.old) i x }
        ensures value { result ≡ slice_get (items self.old) i }
        ensures none { IfNone result (self.new ≡ self.old) }
    {
        if i >= self.len {
            return None;
        }
        let item = self.at[i];
        self.at[i] = x;
        Some(item)
    }

    /// Takes out the item at i.
    pub fn remove(&mut self, i: usize) -> Option<T>
        ensures list { items self.new ≡ remove (items self.old) i }
        ensures value { result ≡ slice_get (items self.old) i }
        ensures none { IfNone result (self.new ≡ self.old) }
    {
        let len = self.len;
        if i >= len {
            return None;
        }
        let at = &mut self.at[..];
        let item = at[i];
        at[i..len].rotate_left(1);
        self.len = len - 1;
        Some(item)
    }

    /// Puts x before the item at i, or after the last.
    pub fn insert(&mut self, i: usize, x: T) -> Result<(), NoRoom>
        ensures variant { IsOk result ↔ (length (items self.old) < N) × (i ≤ length (items self.old)) }
        ensures ok { OnOk result (items self.new ≡ insert (items self.old) i x) }
        ensures err { OnErr result (self.new ≡ self.old) }
    {
        if i > self.len {
            return Err(NoRoom);
        }
        self.push(x)?;
        let len = self.len;
        let at = &mut self.at[..];
        at[i..len].rotate_right(1);
        Ok(())
    }

    /// Keeps the items at which `keep` answers true, in their order.
    // It asks that the closure can always be called: only crates of this repository call it.
    pub fn retain<F: FnMut(&T) -> bool>(&mut self, mut keep: F)
        requires { F.IsAlwaysCallable keep }
        ensures { IsFiltered (CalledAt F.FnMut) keep (items self.old) (items self.new) }
    {
        let mut kept = 0;
        // By number and in place: a second list would cost as much as all items.
        for i in 0..self.len {
            let x = self.at[i];
            if keep(&x) {
                self.at[kept] = x;
                kept += 1;
            }
        }
        self.len = kept;
    }

    pub fn as_slice(&self) -> &[T]
        ensures list { result.now ≡ items self.now }
        ensures most { length result.now ≤ N }
    {
        &self.at[..self.len]
    }
}
