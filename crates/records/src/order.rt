//! The order of the records of a message, tag by tag.

ghost use Rattle.std.specs.Prelude.{◌≡◌};
ghost use Rattle.records.specs.Stages.{rest};
ghost use Rattle.records.specs.Reads.{rows, tags};

use super::held::Cursor;
use super::stage::Stage;
use super::tag::Tag;

/// Whether the tags that are left bring the message from a stage to its end.
#[tactic(auto, using(crate::proofs::Tags::out_of_order))]
pub fn is_in_order(start: Stage, message: Cursor) -> bool
    ensures { result ≡ rest start (tags (rows message.entry)) }
{
    let mut stage = start;
    // A loop, since each record needs the stage before it: try_fold reads no plainer.
    for record in message {
        let Ok(tag) = Tag::try_from(record.tag()) else {
            return false;
        };
        let Some(next) = stage.after(tag) else {
            return false;
        };
        stage = next;
    }
    stage.may_end()
}
