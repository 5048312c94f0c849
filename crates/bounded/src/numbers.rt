//! The operations of a set of numbers.

ghost use Rattle.std.specs.Prelude.{◌≡◌, ℕ, true, false, not, ◌||◌, ◌==◌};
ghost use Rattle.bounded.specs.Numbers.{holds};

use super::held::NumberSet;

impl Default for NumberSet {
    ghost is_default = { λ set. (n : ℕ) → holds set n ≡ false };

    fn default() -> NumberSet {
        NumberSet::new()
    }
}

impl NumberSet {
    pub fn new() -> NumberSet
        ensures { (n : ℕ) → holds result n ≡ false }
    {
        NumberSet { words: [0; 1024] }
    }

    /// Puts a number in: false, and nothing changes, where it is in already, as std's sets answer.
    pub fn insert(&mut self, number: u16) -> bool
        ensures fresh { result ≡ not (holds self.old number) }
        ensures same { result ≡ false → self.new ≡ self.old }
        ensures held { result ≡ true → (n : ℕ) → holds self.new n ≡ (n == number || holds self.old n) }
    {
        let place = number as usize;
        let bits = self.words[place / 64];
        if (bits >> (place % 64)) & 1 == 1 {
            return false;
        }
        self.words[place / 64] = bits | (1 << (place % 64));
        true
    }

    #[tactic(auto, using(crate::proofs::Mask::test_is), unfolding(crate::specs::Numbers::holds))]
    pub fn contains(&self, number: u16) -> bool
        ensures { result ≡ holds self.now number }
    {
        let place = number as usize;
        (self.words[place / 64] >> (place % 64)) & 1 == 1
    }
}
