//! The worked examples, as one theorem.

#![tactic(auto)]

ghost use Rattle.worked.specs.Examples.{WorkedExamples};

/// The worked examples hold.
pub fn worked_examples()
    ensures { WorkedExamples }
{}
