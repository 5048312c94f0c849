//! Masks: sets and rows as the bits of a number; 16-bit masks as two octets of a board, since the host lends octets.

ghost use Rattle.std.specs.Prelude.{◌≡◌, ℕ, ◌+◌, ◌*◌, ◌^◌, ◌<◌, ◌≤◌, true, false, length, slice_index_or, ◌≢◌};
ghost use Rattle.std.specs.Fn.{FnReturnsAt};
ghost use Rattle.bounded.specs.Bit.{bit};
ghost use Rattle.matching.specs.Masks.{row_mask};

/// Whether bit `s` of the mask is set. For the crates of this repository alone.
pub fn has(mask: u64, s: usize) -> bool
    requires { s < 64 }
    ensures { result ≡ bit mask s }
{
    (mask >> s) & 1 == 1
}

/// The mask with bit `s` set. For the crates of this repository alone.
pub fn with(mask: u64, s: usize) -> u64
    requires { s < 64 }
    ensures here { bit result s ≡ true }
    ensures other { (t : ℕ) → (t ≢ s) → bit result t ≡ bit mask t }
    ensures fits { (k : ℕ) → s < k → mask < 2 ^ k → result < 2 ^ k }
{
    mask | (1 << s)
}

/// The places of the items that pass a test, a bit for each. For the crates of this repository alone.
pub fn mask_where<T, F: Fn(&T) -> bool>(items: &[T], passes: F) -> u64
    requires few { length items.now ≤ 64 }
    requires callable { F.IsAlwaysCallable passes }
    ensures items { (k : ℕ) (x : T) → k < length items.now → slice_index_or items.now k x ≡ x → FnReturnsAt F.Fn passes x (bit result k) }
    ensures beyond { (k : ℕ) → length items.now ≤ k → bit result k ≡ false }
    ensures fits { (k : ℕ) → length items.now ≤ k → result < 2 ^ k }
{
    let mut mask: u64 = 0;
    for (k, item) in items.iter().enumerate() {
        if passes(item) {
            mask = with(mask, k);
        }
    }
    mask
}

/// The mask at place `r` of a board: two octets, the low one first. For the crates of this repository alone.
pub fn mask_at(board: &[u8], r: usize) -> u16
    requires { 2 * r + 1 < length board.now }
    ensures { result ≡ row_mask board.now r }
{
    u16::from_le_bytes([board[2 * r], board[2 * r + 1]])
}

/// Writes the mask at place `r` of a board. For the crates of this repository alone.
pub fn put_mask(board: &mut [u8], r: usize, mask: u16)
    requires { 2 * r + 1 < length board.old }
    ensures here { row_mask board.new r ≡ mask }
    ensures other { (q : ℕ) → (q ≢ r) → row_mask board.new q ≡ row_mask board.old q }
{
    let [low, high] = mask.to_le_bytes();
    board[2 * r] = low;
    board[2 * r + 1] = high;
}
