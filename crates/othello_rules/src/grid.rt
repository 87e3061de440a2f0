//! The grid of 64 cells, and what a move does to it.

ghost use Rattle.std.specs.Prelude.{◌≡◌, ◌+◌, ◌<◌, ◌≤◌, ◌++◌, ◌↔◌, [], Bool, true, false};
ghost use Rattle.std.specs.Prelude.{length, take, slice_get, Some, IsTrue, IsOk, IfOk, neg_ℤ};
ghost use Rattle.std.specs.Option.{option_map_or};
ghost use Rattle.std.specs.Int.{int_max};
ghost use Rattle.arrayvec.specs.ArrayVec.{array_vec_len};
ghost use Rattle.othello_rules.specs.Board.{ray, steps_to_edge};
ghost use Rattle.othello_rules.specs.Rules.{IsOver, count_of, flips, has, moves, pass, play};
ghost use Rattle.othello_rules.specs.Rules.{turned};
ghost use Rattle.othello_rules.specs.Scores.{final};
ghost use Rattle.othello_rules.specs.Masks.{mask_of};
ghost use Rattle.othello_rules.specs.Answer.{IsScore};
ghost use Rattle.othello_rules.specs.Value.{can_move, value, answer, empties, best_moves};
ghost use Rattle.std.specs.List.{Contains};

use crate::answer::{Answer, Best};
use crate::direction::{DIRECTIONS, Direction};
use crate::discs::{Cell, Side};
use crate::rule_fault::RuleFault;
use crate::scoring::Scoring;
use crate::square::Square;
use arrayvec::ArrayVec;
use std::marker::Model;

/// A position: 64 cells in the order of the squares' numbers (A1, B1, .. H1, A2, .. H8), and the
/// side to move, the mover.
#[derive(Clone, Copy, PartialEq, Eq, Debug)]
pub struct Grid {
    cells: [Cell; 64],
    side: Side,
}

impl Model for Grid {
    ghost use Rattle.std.specs.Prelude.{◌≡◌, length};
    ghost use Rattle.othello_rules.specs.Rules.{GridView};

    ghost Value = { GridView };

    ghost view = { λ g. record { cells = g.cells; mover = g.side } };

    ghost invariant = { λ g. length g.cells ≡ 64 };

    ghost inverse = { λ p. record { cells = p.cells; side = p.mover } };
}

// A score as the other side sees it.
fn negate(score: i8) -> i8
    requires { IsScore score }
    ensures value { result ≡ neg_ℤ score }
    ensures in_range { IsScore result }
{
    -score
}

// The greater of `worth` and the best so far, if there is one.
fn raise(best: Option<i8>, worth: i8) -> i8
    ensures { result ≡ option_map_or (λ so_far. int_max so_far worth) best worth }
{
    match best {
        Some(so_far) => so_far.max(worth),
        None => worth,
    }
}

impl Grid {
    /// The position with these cells, in the order A1, B1, .. H8, and with `side` to move.
    pub fn new(cells: [Cell; 64], side: Side) -> Grid
        ensures { result ≡ record { cells = cells; mover = side } }
    {
        Grid { cells, side }
    }

    /// What stands on a square.
    pub fn cell(&self, square: Square) -> Cell
        ensures value { slice_get self.now.cells square ≡ Some result }
        ensures on_board { square < 64 }
        ensures whole { length self.now.cells ≡ 64 }
    {
        self.cells[square.number() as usize]
    }

    /// The side to move.
    pub fn side(&self) -> Side
        ensures value { result ≡ self.now.mover }
        ensures whole { length self.now.cells ≡ 64 }
    {
        // Using the cells shows the check that there are 64.
        let _cells = &self.cells;
        self.side
    }

    /// The position with the other side to move. Whether the rules allow the pass is not tested.
    pub fn pass(&self) -> Grid
        ensures { result ≡ pass self.now }
    {
        Grid::new(self.cells, self.side.other())
    }

    // Whether `cell` is the cell of a square.
    fn has(&self, cell: Cell, square: Square) -> bool
        ensures value { result ≡ has self.now cell square }
        ensures on_board { square < 64 }
        ensures whole { length self.now.cells ≡ 64 }
    {
        cell.is(self.cell(square))
    }

    // The number of discs that a move on `from` would turn in a direction.
    fn count_turned(&self, from: Square, direction: Direction) -> u8
        ensures value { turned self.now from direction ≡ take result (ray direction from) }
        ensures short { result ≤ 6 }
        ensures inside { result ≤ steps_to_edge direction from }
    {
        let own = self.side.disc();
        let opposing = self.side.other().disc();
        // A run that reaches the edge turns nothing.
        let open_run = 0;
        for run in 0..from.steps_to_edge(direction) {
            let next = from.step(direction, run + 1);
            if self.has(own, next) {
                return run;
            }
            if !self.has(opposing, next) {
                return 0;
            }
        }
        open_run
    }

    // Adds the squares of the discs that a move on `from` would turn in a direction, nearest first.
    fn push_turned(&self, from: Square, direction: Direction, out: &mut ArrayVec<Square, 64>)
        requires { array_vec_len out.old ≤ 58 }
        ensures items { out.new.items ≡ out.old.items ++ turned self.now from direction }
        ensures len { array_vec_len out.new ≤ array_vec_len out.old + 6 }
    {
        for step in 0..self.count_turned(from, direction) {
            out.push(from.step(direction, step + 1));
        }
    }

    /// The squares of the discs that a move on the square would turn: direction by direction
    /// (north, north-east, and so on clockwise), nearest first. There are none if the square is
    /// occupied.
    pub fn flips(&self, square: Square) -> ArrayVec<Square, 64>
        ensures value { result.items ≡ flips self.now square }
        ensures on_board { square < 64 }
        ensures whole { length self.now.cells ≡ 64 }
    {
        let mut out = ArrayVec::new();
        if self.has(Cell::Empty, square) {
            for direction in DIRECTIONS.iter() {
                self.push_turned(square, *direction, &mut out);
            }
        }
        out
    }

    /// Whether a move on the square is allowed: the square is empty, and a disc of the mover on it
    /// would turn at least one disc.
    pub fn is_legal(&self, square: Square) -> bool
        ensures value { IsTrue result ↔ Contains (moves self.now) square }
        ensures whole { length self.now.cells ≡ 64 }
    {
        !self.flips(square).is_empty()
    }

    /// The position after a move on the square: the disc put there and all discs that it turns are
    /// the mover's, and the other side is to move. `Occupied` if the square is occupied;
    /// `TurnsNothing` if it is empty and no disc would be turned.
    pub fn play(&self, square: Square) -> Result<Grid, RuleFault>
        ensures occupied { (result ≡ Err RuleFault.Occupied)
            ↔ (has self.now Cell.Empty square ≡ false) }
        ensures turns_nothing { (result ≡ Err RuleFault.TurnsNothing)
            ↔ ((has self.now Cell.Empty square ≡ true) × (flips self.now square ≡ [])) }
        ensures legal { IsOk result ↔ Contains (moves self.now) square }
        ensures ok { IfOk result (λ g. g ≡ play self.now square) }
    {
        if !self.has(Cell::Empty, square) {
            return Err(RuleFault::Occupied);
        }
        let flips = self.flips(square);
        if flips.is_empty() {
            return Err(RuleFault::TurnsNothing);
        }
        let own = self.side.disc();
        let mut cells = self.cells;
        cells[square.number() as usize] = own;
        for turned in flips.iter() {
            cells[turned.number() as usize] = own;
        }
        Ok(Grid {
            cells,
            side: self.side.other(),
        })
    }

    // Whether the mover has an allowed move.
    fn can_move(&self) -> bool
        ensures { result ≡ can_move self.now }
    {
        for square in Square::all().iter() {
            if self.is_legal(*square) {
                return true;
            }
        }
        false
    }

    /// Whether the game is over: neither side has a move, whether the board is full or not.
    pub fn is_over(&self) -> bool
        ensures { IsTrue result ↔ IsOver self.now }
    {
        !self.can_move() && !self.pass().can_move()
    }

    // The number of cells that are `cell`.
    fn count(&self, cell: Cell) -> u8
        ensures value { result ≡ count_of self.now cell }
        ensures at_most { result ≤ 64 }
        ensures whole { length self.now.cells ≡ 64 }
    {
        let mut count: u8 = 0;
        for found in self.cells.iter() {
            if cell.is(*found) {
                count += 1;
            }
        }
        count
    }

    /// The number of empty squares, from 0 to 64.
    pub fn empties(&self) -> u8
        ensures value { result ≡ empties self.now }
        ensures at_most { result ≤ 64 }
    {
        self.count(Cell::Empty)
    }

    /// The score of the discs and empty squares as they stand, as the mover sees it: in discs from
    /// -64 to 64, or 1, 0 or -1 under `Sign`. Whether the game is over is not tested.
    pub fn final_score(&self, scoring: Scoring) -> i8
        ensures value { result ≡ final scoring self.now }
        ensures in_range { IsScore result }
    {
        let own = self.count(self.side.disc());
        let opposing = self.count(self.side.other().disc());
        scoring.score(own, opposing, self.empties())
    }

    /// The value of the position by full minimax, as the mover sees it: in discs from -64 to 64, or
    /// 1, 0 or -1 under `Sign`. It follows every line of play to its end, so it is slow with many
    /// empty squares.
    pub fn plain_value(&self, scoring: Scoring) -> i8
        ensures value { result ≡ value scoring self.now }
        ensures in_range { IsScore result }
    {
        // Using the cells shows the check that there are 64.
        let _cells = &self.cells;
        let mut best: Option<i8> = None;
        for square in Square::all().iter() {
            if let Ok(next) = self.play(*square) {
                let reply = next.plain_value(scoring);
                let worth = negate(reply);
                best = Some(raise(best, worth));
            }
        }
        match best {
            Some(greatest) => greatest,
            None => {
                let passed = self.pass();
                if passed.can_move() {
                    let theirs = passed.plain_value(scoring);
                    negate(theirs)
                } else {
                    self.final_score(scoring)
                }
            }
        }
    }

    // The mask of the moves that are worth the value `score`: A1 is bit 0.
    fn best_mask(&self, scoring: Scoring, score: i8) -> u64
        requires { score ≡ value scoring self.now }
        ensures { result ≡ mask_of (best_moves scoring self.now) }
    {
        let mut mask: u64 = 0;
        for square in Square::all().iter() {
            if let Ok(next) = self.play(*square) {
                let reply = next.plain_value(scoring);
                let worth = negate(reply);
                if worth == score {
                    mask += 1 << square.number();
                }
            }
        }
        mask
    }

    /// The answer of the position by full minimax: its value, and all moves that attain it, a pass,
    /// or the end of the game. It follows every line of play to its end, so it is slow with many
    /// empty squares.
    pub fn plain_answer(&self, scoring: Scoring) -> Answer
        ensures { result ≡ answer scoring self.now }
    {
        let score = self.plain_value(scoring);
        let best = if self.can_move() {
            let mask = self.best_mask(scoring, score);
            Best::Moves(mask)
        } else if self.pass().can_move() {
            Best::Pass
        } else {
            Best::Over
        };
        Answer { score, best }
    }
}
