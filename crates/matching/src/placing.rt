//! Placing every row, by rising place, or the group that forbids it.

ghost use Rattle.std.specs.Prelude.{length};
ghost use Rattle.matching.specs.Calls.{Shaped};
ghost use Rattle.matching.specs.Verdicts.{Judged};

use crate::block::Block;
use crate::seats::Seats;

// No row: what the place of a free set holds, since the host lends octets.
const FREE: u8 = 255;

/// Seats each row of the board, by rising place, at a usable set of its own, of as many as `holders` has places.
/// Where all are seated, `holders` has the row of each set. For the crates of this repository alone.
pub fn place(board: &[u8], holders: &mut [u8]) -> Result<(), Block>
    requires { Shaped board.now holders.old }
    ensures { Judged board.now (length holders.old) holders.new result }
{
    holders.fill(FREE);
    let mut seats = Seats {
        board,
        holders,
        visited: 0,
    };
    // By number: the board's pairs of octets read no plainer, since the row's number is needed.
    for row in 0..seats.rows() {
        seats.seat_next(row)?;
    }
    Ok(())
}
