//! Seating a row and vacating a set: an augmenting path, found by two methods that call each other.

ghost use Rattle.matching.specs.Calls.{Shaped};

use crate::block::Block;
use crate::masks::{has, mask_at, with};

/// What each row can use, the row that holds each set, and the sets that are visited for the row that asks for a seat.
#[derive(Drop)]
pub(crate) struct Seats<'a> {
    pub(crate) board: &'a [u8],
    pub(crate) holders: &'a mut [u8],
    pub(crate) visited: u16,
    ghost shaped: { Shaped board.now holders.now },
}

impl Seats<'_> {
    ghost use Rattle.std.specs.Prelude.{◌≡◌, ℕ, ◌<◌, ◌≤◌, true, false, length, MatchOption, OnOk, IfErr, ◌+◌};
    ghost use Rattle.bounded.specs.Bit.{bit};
    ghost use Rattle.matching.specs.Board.{reach, count};
    ghost use Rattle.matching.specs.Calls.{at, tall};
    ghost use Rattle.matching.specs.Masks.{can};
    ghost use Rattle.matching.specs.Seats.{SeatedBelow, Seatable, Vacatable, SameBoard, Visits, fresh, VisitedHeld, Won, Lost};
    ghost use Rattle.matching.specs.Verdicts.{Blocked, Grouped};

    /// How many rows the board has.
    pub(crate) fn rows(&self) -> usize
        ensures { result ≡ tall self.now.board.now }
    {
        self.board.len() / 2
    }

    // The row that holds a set.
    fn holder(&self, set: usize) -> Option<usize>
        requires { set < length self.now.holders.now }
        ensures { MatchOption result (tall self.now.board.now ≤ at self.now.holders.now set) (λ r. (r < tall self.now.board.now) × (r ≡ at self.now.holders.now set)) }
    {
        let row = usize::from(self.holders[set]);
        (row < self.rows()).then_some(row)
    }

    // A set that the row can use and that is not visited.
    fn fresh_set(&self, row: usize) -> Option<usize>
        requires { row < tall self.now.board.now }
        ensures { MatchOption result ((s : ℕ) → s < length self.now.holders.now → fresh self.now row s ≡ false) (λ s. (s < length self.now.holders.now) × (fresh self.now row s ≡ true)) }
    {
        let fresh = mask_at(self.board, row) & !self.visited;
        (fresh != 0).then_some(fresh.trailing_zeros() as usize)
    }

    // Marks a set as visited.
    fn visit(&mut self, set: usize)
        requires { set < 16 }
        ensures { Visits self.old self.new set }
    {
        self.visited = with(u64::from(self.visited), set) as u16;
    }

    // Seats a row at a set that it can use and that can be freed for it, over sets that are not yet visited.
    // A bool, as `vacate` gives: yes or no, which only an `if` reads.
    #[cycle(seat_vacate)]
    fn seat(&mut self, row: usize) -> bool
        requires { Seatable self.old row }
        ensures same { SameBoard self.old self.new }
        ensures won { result ≡ true → Won self.old self.new row }
        ensures lost { result ≡ false → Lost self.old self.new row }
    {
        while let Some(set) = self.fresh_set(row) {
            self.visit(set);
            if self.vacate(set) {
                self.holders[set] = row as u8;
                return true;
            }
        }
        false
    }

    // Frees a set: seats the row that holds it elsewhere.
    #[cycle(seat_vacate)]
    fn vacate(&mut self, set: usize) -> bool
        requires { Vacatable self.old set }
        ensures same { SameBoard self.old self.new }
        ensures won { result ≡ true → Won self.old self.new (at self.old.holders.now set) }
        ensures lost { result ≡ false → (at self.old.holders.now set < tall self.old.board.now) × Lost self.old self.new (at self.old.holders.now set) }
    {
        match self.holder(set) {
            Some(row) => self.seat(row),
            None => true,
        }
    }

    // A row and the rows that hold a visited set.
    fn group(&self, row: usize) -> u32
        requires row { row < tall self.now.board.now }
        requires held { VisitedHeld self.now }
        ensures { Grouped self.now.holders.now self.now.visited row result (length self.now.holders.now) }
    {
        let mut group = with(0, row);
        for (set, holder) in self.holders.iter().enumerate() {
            if has(u64::from(self.visited), set) {
                group = with(group, usize::from(*holder));
            }
        }
        group as u32
    }

    // The sets that some row of the group can use.
    fn reached(&self, group: u32) -> u16
        ensures { (s : ℕ) → bit result s ≡ reach (can self.now.board.now) (tall self.now.board.now) (bit group) s }
    {
        let mut sets: u16 = 0;
        // By number: the board's pairs of octets read no plainer, since the row's number is needed.
        for row in 0..self.rows() {
            if has(u64::from(group), row) {
                sets |= mask_at(self.board, row);
            }
        }
        sets
    }

    // The group of a row that was refused, and how many sets it can use.
    fn block(&self, row: usize) -> Block
        requires row { row < tall self.now.board.now }
        requires held { VisitedHeld self.now }
        ensures group { Grouped self.now.holders.now self.now.visited row result.group (length self.now.holders.now) }
        ensures sets { result.sets ≡ count (reach (can self.now.board.now) (tall self.now.board.now) (bit result.group)) (length self.now.holders.now) }
    {
        let group = self.group(row);
        let sets = self.reached(group).count_ones() as u8;
        Block { group, sets }
    }

    /// Seats one more row, or names the group that forbids it.
    pub(crate) fn seat_next(&mut self, row: usize) -> Result<(), Block>
        requires row { row < tall self.old.board.now }
        requires below { SeatedBelow self.old row }
        ensures same { SameBoard self.old self.new }
        ensures ok { OnOk result (SeatedBelow self.new (row + 1)) }
        ensures err { IfErr result (Blocked self.new.board.now (length self.new.holders.now)) }
    {
        self.visited = 0;
        if self.seat(row) {
            Ok(())
        } else {
            Err(self.block(row))
        }
    }
}
