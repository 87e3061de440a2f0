//! Null windows (`alpha_beta` says what they are) of positions with at most four empty squares. The
//! moves are searched in the order of their squares, from H8 down: no list is made, nothing is
//! sorted, and no mask of a child's moves is computed, except after a pass. A square is a move if a
//! disc is turned there.

ghost use Rattle.std.specs.Prelude.{◌≡◌, ◌<◌, ◌↔◌, ℕ, true, count_ones, IsNone, IfSome};
ghost use Rattle.othello_rules.specs.Masks.{in_mask};
ghost use Rattle.othello_bits.specs.Pos.{flips_of, value_of, empties_of, IsMove, HasNoMove};
ghost use Rattle.endgame_search.specs.Windows.{IsBound, IsNullWindowScore};
ghost use Rattle.endgame_search.specs.MovesInOrder.{IsNextMove, HasNoMoveOn};
ghost use Rattle.endgame_search.specs.LastSquare.{IsEmptySquare, IsFullExcept, IsLastSquare};

use crate::table_cutoff::{BELOW_ALL_SCORES, probe_cutoff};
use bound_table::Bounds;
use othello_bits::{Pos, lowest, without};
use othello_rules::{Scoring, Square};

// The number of discs that the mover turns by a disc on the last empty square: 0 if that is not
// a move.
#[inline(always)]
fn turned_count(position: Pos, square: Square) -> u8
    requires full { IsFullExcept position square }
    ensures value { result ≡ count_ones (flips_of position square) }
    ensures legal { IsMove position square ↔ (0 < result) }
{
    position.count_last_flips(square) as u8
}

// A position with one empty square, that square, and the number of discs that the mover turns by a
// disc there.
#[derive(Clone, Copy)]
struct LastSquare {
    position: Pos,
    square: Square,
    turned: u8,
}

impl LastSquare {
    #[inline(always)]
    fn new(position: Pos, square: Square) -> LastSquare
        requires { IsFullExcept position square }
        ensures position { result.position ≡ position }
        ensures square { result.square ≡ square }
        ensures last { IsLastSquare result }
    {
        LastSquare {
            position,
            square,
            turned: turned_count(position, square),
        }
    }

    // The value of a position whose mover has a move on the last empty square. After it the mover
    // has its discs, the one put on the square and those turned. The opponent has the rest.
    #[inline(always)]
    fn score(self, scoring: Scoring) -> i8
        requires last { IsLastSquare self }
        requires some { 0 < self.turned }
        ensures { result ≡ value_of scoring self.position }
    {
        let own = self.position.own().count_ones() as u8 + self.turned + 1;
        scoring.score(own, 64 - own, 0)
    }
}

// Searches a position whose one empty square is a move of the mover. It is probed, as `value_in`
// promises of every position: a table may know it.
#[inline(always)]
fn search_last_move<T: Bounds>(table: &T, last: LastSquare, bound: i8) -> i8
    requires last { IsLastSquare last }
    requires some { 0 < last.turned }
    requires bound { IsBound bound }
    ensures { IsNullWindowScore bound (value_of (T.scoring table.now) last.position) result }
{
    if let Some(score) = probe_cutoff(table, last.position, bound) {
        return score;
    }
    last.score(table.scoring())
}

// Searches a position whose one empty square is not a move of the mover: a pass, or the end of the
// game.
#[inline(always)]
fn search_last_pass<T: Bounds>(table: &T, last: LastSquare, bound: i8) -> i8
    requires last { IsLastSquare last }
    requires none { last.turned ≡ 0 }
    requires bound { IsBound bound }
    ensures { IsNullWindowScore bound (value_of (T.scoring table.now) last.position) result }
{
    let passed = LastSquare::new(last.position.pass(), last.square);
    if passed.turned == 0 {
        return last.position.final_score(table.scoring());
    }
    if let Some(score) = probe_cutoff(table, last.position, bound) {
        return score;
    }
    -search_last_move(table, passed, -1 - bound)
}

// Searches a position with one empty square.
#[inline(always)]
fn search_last<T: Bounds>(table: &T, last: LastSquare, bound: i8) -> i8
    requires last { IsLastSquare last }
    requires bound { IsBound bound }
    ensures { IsNullWindowScore bound (value_of (T.scoring table.now) last.position) result }
{
    if last.turned == 0 {
        search_last_pass(table, last, bound)
    } else {
        search_last_move(table, last, bound)
    }
}

// The mask of the empty squares.
#[inline(always)]
fn empty_squares(position: Pos) -> u64
    ensures squares { (q : ℕ) → IsEmptySquare position q → in_mask result q ≡ true }
    ensures count { count_ones result ≡ empties_of position }
{
    !(position.own() | position.opp())
}

// The last empty square.
#[inline(always)]
fn last_empty_square(position: Pos) -> Square
    requires one { empties_of position ≡ 1 }
    ensures { IsFullExcept position result }
{
    lowest(empty_squares(position))
}

// The position after a move, and the mask of the squares that are not tried yet.
#[derive(Clone, Copy)]
struct NextMove {
    position: Pos,
    rest: u64,
}

// The highest square of a mask.
#[inline(always)]
fn highest(mask: u64) -> Square
    requires { 0 < mask }
    ensures { in_mask mask result ≡ true }
{
    Square::at((63 - mask.leading_zeros()) as u8)
}

// The move on the highest square of the mask that is one. None if no square of the mask is a move.
#[inline(always)]
fn next_move(position: Pos, squares: u64) -> Option<NextMove>
    ensures none { IsNone result → HasNoMoveOn position squares }
    ensures some { IfSome result (IsNextMove position squares) }
{
    let mut rest = squares;
    while rest != 0 {
        let square = highest(rest);
        rest = without(rest, square);
        if let Some(child) = position.play(square) {
            return Some(NextMove {
                position: child,
                rest,
            });
        }
    }
    None
}

// Searches a position by its moves on the squares of a mask, the highest first. All moves are on
// squares of the mask.
#[cycle(last)]
#[inline(never)]
pub(crate) fn search_in_order<T: Bounds>(
    table: &T,
    position: Pos,
    squares: u64,
    empties: u8,
    bound: i8,
) -> i8
    requires squares { (q : ℕ) → IsMove position q → in_mask squares q ≡ true }
    requires empties { empties ≡ empties_of position }
    requires bound { IsBound bound }
    ensures { IsNullWindowScore bound (value_of (T.scoring table.now) position) result }
{
    let Some(first) = next_move(position, squares) else {
        return search_pass_in_order(table, position, empties, bound);
    };
    if let Some(score) = probe_cutoff(table, position, bound) {
        return score;
    }
    let mut best = BELOW_ALL_SCORES;
    let mut tried = first;
    loop {
        let score = -search_after(table, tried.position, empties - 1, -1 - bound);
        if score > bound {
            return score;
        }
        best = best.max(score);
        let Some(next) = next_move(position, tried.rest) else {
            return best;
        };
        tried = next;
    }
}

// Searches a position in which the mover has no move, and which is not probed yet: a pass, or the
// end of the game.
#[cycle(last)]
#[inline(never)]
fn search_pass_in_order<T: Bounds>(table: &T, position: Pos, empties: u8, bound: i8) -> i8
    requires none { HasNoMove position }
    requires empties { empties ≡ empties_of position }
    requires bound { IsBound bound }
    ensures { IsNullWindowScore bound (value_of (T.scoring table.now) position) result }
{
    let passed = position.pass();
    let replies = passed.moves();
    if replies == 0 {
        return position.final_score(table.scoring());
    }
    if let Some(score) = probe_cutoff(table, position, bound) {
        return score;
    }
    -search_in_order(table, passed, replies, empties, -1 - bound)
}

// Searches the position after a move.
#[cycle(last)]
#[inline(always)]
fn search_after<T: Bounds>(table: &T, position: Pos, empties: u8, bound: i8) -> i8
    requires empties { empties ≡ empties_of position }
    requires bound { IsBound bound }
    ensures { IsNullWindowScore bound (value_of (T.scoring table.now) position) result }
{
    if empties == 1 {
        let last = LastSquare::new(position, last_empty_square(position));
        search_last(table, last, bound)
    } else {
        search_in_order(table, position, empty_squares(position), empties, bound)
    }
}
