//! The whole run of the bench over its input.

ghost use Rattle.std.specs.Prelude.{◌≡◌, ℕ, List, IfOk, string_bytes};
ghost use Rattle.replay.specs.Bench.{Printed};

use super::step::perform;
use cutting::Pieces;
use lines::push_line;
use std::alloc::{AllocError, Global};
use table::Table;

/// The lines of the pieces of the input, in order, on a new table. An `Err` is want of memory.
pub fn run(heap: Global, input: &[u8]) -> Result<String, AllocError>
    ensures printed { IfOk result (λ s. Printed input.now (string_bytes s)) }
    ensures alone { IfOk result (λ s. (out : List ℕ) → Printed input.now out → string_bytes s ≡ out) }
{
    let mut table = Table::new();
    let mut out = String::new(heap);
    for piece in Pieces::of(input) {
        push_line(&mut out, perform(&mut table, piece))?;
    }
    Ok(out)
}
