//! Performs one piece of the input.

ghost use Rattle.std.specs.Prelude.{length};
ghost use Rattle.cutting.specs.Cut.{Size};
ghost use Rattle.cutting.specs.Pieces.{portion};
ghost use Rattle.replay.specs.Bench.{Step};

use cutting::Piece;
use judges::StandardJudge;
use lines::Line;
use modes::request_mode;
use refusals::Refusal;
use table::Table;

// Performs a piece on the table, and gives its line.
pub(crate) fn perform(table: &mut Table, piece: Piece<'_>) -> Line
    requires { Size (portion piece).kind (length (portion piece).octets) }
    ensures { Step table.old (portion piece.entry) result table.new }
{
    match piece {
        Piece::Set(message) => Line::Set {
            sequence: message[1],
            answer: table
                .set(&StandardJudge, message)
                .map(|_| ())
                .map_err(Refusal::number),
        },
        Piece::Mode(message) => {
            let mut scratch = [0u8; 512];
            let answer = request_mode(&StandardJudge, table, message, &mut scratch);
            Line::Mode(answer.map_err(Refusal::number))
        }
        Piece::Bad(record) => Line::Bad(record[0]),
        Piece::Short(_) => Line::Short,
    }
}
