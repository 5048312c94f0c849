//! The guard of the lent scratch memory, and the call in it.

ghost use Rattle.std.specs.Prelude.{◌≡◌, ◌≤◌, List, ℕ, length, take, MatchResult};
ghost use Rattle.std.specs.Fn.{FnOnceReturnsAtMut};
ghost use Rattle.refusals.specs.Checks.{First, Passed};
ghost use Rattle.search.specs.Scratch.{cleared, left_over, scratch_checks};

use refusals::Refusal;

/// How many octets of scratch a call is lent at least, and zeroes.
pub const ROOM: usize = 512;

// Zeroes the first 512 octets.
fn wipe(octets: &mut [u8])
    requires { 512 ≤ length octets.old }
    ensures { octets.new ≡ cleared octets.old }
{
    octets[..ROOM].fill(0);
}

// A slice with a length to ask for: of an array that is lent on from a slice, nothing is proved of what comes back.
/// The scratch memory of one call: zeroed when it is let go.
pub struct Guard<'a> {
    pub bytes: &'a mut [u8],
}

impl Drop for Guard<'_> {
    fn drop(self)
        requires { 512 ≤ length self.bytes.now }
        ensures { self.exit.0.now ≡ cleared self.entry.bytes.now }
    {
        wipe(self.bytes);
        let Guard { bytes: _ } = self;
    }
}

/// Runs a call in the first octets of the scratch, and zeroes them after it.
// It asks that the closure can always be called: only crates of this repository call it.
pub fn in_scratch<R, F: FnOnce(&mut [u8; ROOM]) -> R>(
    scratch: &mut [u8],
    run: F,
) -> Result<R, Refusal>
    requires { F.IsAlwaysCallable run }
    ensures scratch { scratch.new ≡ left_over scratch.old }
    ensures answer { MatchResult result (λ r. Passed (scratch_checks scratch.old) × ((left : List ℕ) × FnOnceReturnsAtMut F.FnOnce run (take 512 scratch.old) r left)) (λ k. First (scratch_checks scratch.old) k) }
{
    if scratch.len() < ROOM {
        return Err(Refusal::Scratch);
    }
    let (bytes, _) = scratch.split_at_mut(ROOM);
    let guard = Guard { bytes };
    let work = guard.bytes.first_chunk_mut().unwrap();
    Ok(run(work))
}
