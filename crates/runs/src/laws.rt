//! The law, and what makers quote of it, as theorems: the contract states each, and its function does nothing.

ghost use Rattle.runs.specs.Law.{Law};
ghost use Rattle.runs.specs.Words.{IsNotAvailable, IsTooNarrow, IsModeUnavailable};

use judges::Judge;

/// The law over runs, of every session over such a judge and for any sequence of calls.
pub fn law_stands<J: Judge>(_judge: &J)
    ensures { Law J.Judge.lawful J.Judge.covers }
{}

/// An ask is refused as not available exactly when no standing descriptor carries the channels.
pub fn not_available<J: Judge>(_judge: &J)
    ensures { IsNotAvailable J.Judge.lawful J.Judge.covers }
{}

/// A set is refused as too narrow exactly when channels are held and no descriptor of the table after it carries them.
pub fn too_narrow<J: Judge>(_judge: &J)
    ensures { IsTooNarrow J.Judge.lawful J.Judge.covers }
{}

/// A mode request is refused as unavailable exactly when no standing descriptor carries any of its modes.
pub fn mode_unavailable<J: Judge>(_judge: &J)
    ensures { IsModeUnavailable J.Judge.lawful J.Judge.covers }
{}
