//! What holds of every mode request, as a theorem: the contract states it, and its function does nothing.

ghost use Rattle.modes.specs.Requests.{OneMode};

/// A judge, what stands in a table and a message have one answer.
pub fn one_mode()
    ensures { OneMode }
{}
