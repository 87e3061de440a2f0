//! Null windows (`alpha_beta` says what they are) of positions with at most 7 empty squares.
//! Nothing is stored, and a child is not probed until its own search begins.

ghost use Rattle.std.specs.Prelude.{◌≡◌, ◌≢◌, ◌≤◌, ◌≤ℤ◌, negsuc, length};
ghost use Rattle.othello_bits.specs.Pos.{moves_of, empties_of, value_of, HasNoMove};
ghost use Rattle.endgame_search.specs.Windows.{IsBound, IsNullWindowScore};
ghost use Rattle.endgame_search.specs.Children.{UnlistedAreAtMost};

use crate::last_four::search_in_order;
use crate::move_order::{Child, add_children, add_until_no_replies, indices_of, next_of};
use crate::stable_cutoff::stable_cutoff;
use crate::table_cutoff::{BELOW_ALL_SCORES, probe_cutoff};
use crate::tuning::{MOST_EMPTIES_IN_ORDER, MOST_SHALLOW_EMPTIES};
use arrayvec::ArrayVec;
use bound_table::Bounds;
use othello_bits::{Pos, without};

// The room of a list of children: one for each empty square.
const SHALLOW_ROOM: usize = MOST_SHALLOW_EMPTIES as usize;

// Searches a position with at most 7 empty squares.
#[cycle(shallow)]
#[inline(always)]
pub(crate) fn search_shallow<T: Bounds>(
    table: &T,
    position: Pos,
    moves: u64,
    empties: u8,
    bound: i8,
) -> i8
    requires moves { moves ≡ moves_of position }
    requires empties { empties ≡ empties_of position }
    requires shallow { empties ≤ MOST_SHALLOW_EMPTIES }
    requires bound { IsBound bound }
    ensures { IsNullWindowScore bound (value_of (T.scoring table.now) position) result }
{
    if moves != 0 {
        search_shallow_moves(table, position, moves, empties, bound)
    } else {
        search_shallow_pass(table, position, bound)
    }
}

// Searches such a position in which the mover has no move: a pass, or the end of the game.
#[cycle(shallow)]
#[inline(never)]
fn search_shallow_pass<T: Bounds>(table: &T, position: Pos, bound: i8) -> i8
    requires none { HasNoMove position }
    requires shallow { empties_of position ≤ MOST_SHALLOW_EMPTIES }
    requires bound { IsBound bound }
    ensures { IsNullWindowScore bound (value_of (T.scoring table.now) position) result }
{
    let passed = position.pass();
    let replies = passed.moves();
    if replies == 0 {
        return position.final_score(table.scoring());
    }
    if let Some(score) = probe_cutoff(table, position, bound) {
        return score;
    }
    -search_shallow_moves(table, passed, replies, position.empties(), -1 - bound)
}

// Searches such a position in which the mover has a move.
#[cycle(shallow)]
#[inline(always)]
fn search_shallow_moves<T: Bounds>(
    table: &T,
    position: Pos,
    moves: u64,
    empties: u8,
    bound: i8,
) -> i8
    requires moves { moves ≡ moves_of position }
    requires some { moves ≢ 0 }
    requires empties { empties ≡ empties_of position }
    requires shallow { empties ≤ MOST_SHALLOW_EMPTIES }
    requires bound { IsBound bound }
    ensures { IsNullWindowScore bound (value_of (T.scoring table.now) position) result }
{
    if empties <= MOST_EMPTIES_IN_ORDER {
        search_in_order(table, position, moves, empties, bound)
    } else {
        search_shallow_by_list(table, position, moves, bound)
    }
}

// Searches such a position in which the mover has a move, by a list of its children. As in
// `alpha_beta`, the first child without replies is searched before the remaining children are made.
#[cycle(shallow)]
#[inline(never)]
fn search_shallow_by_list<T: Bounds>(table: &T, position: Pos, moves: u64, bound: i8) -> i8
    requires moves { moves ≡ moves_of position }
    requires some { moves ≢ 0 }
    requires shallow { empties_of position ≤ MOST_SHALLOW_EMPTIES }
    requires bound { IsBound bound }
    ensures { IsNullWindowScore bound (value_of (T.scoring table.now) position) result }
{
    let mut children = ArrayVec::<Child, SHALLOW_ROOM>::new();
    if let Some(score) = probe_cutoff(table, position, bound) {
        return score;
    }
    if let Some(score) = stable_cutoff(position, bound) {
        return score;
    }
    let Some(split) = add_until_no_replies(position, moves, &mut children) else {
        return search_shallow_children(table, position, &children, BELOW_ALL_SCORES, bound);
    };
    let first = split.child;
    let score = -search_shallow_pass(table, first.position, -1 - bound);
    if score > bound {
        return score;
    }
    add_children(position, split.rest, &mut children);
    search_shallow_children(table, position, &children, score, bound)
}

// Searches the listed children. `best_so_far` is the best score of the moves that are not listed,
// or `BELOW_ALL_SCORES` if there are none.
#[cycle(shallow)]
#[inline(always)]
fn search_shallow_children<T: Bounds>(
    table: &T,
    position: Pos,
    children: &[Child],
    best_so_far: i8,
    bound: i8,
) -> i8
    requires unlisted { UnlistedAreAtMost (T.scoring table.now) position best_so_far children.now }
    requires least { negsuc 64 ≤ℤ best_so_far }
    requires open { best_so_far ≤ℤ bound }
    requires some { moves_of position ≢ 0 }
    requires shallow { empties_of position ≤ MOST_SHALLOW_EMPTIES }
    requires room { length children.now ≤ SHALLOW_ROOM }
    requires bound { IsBound bound }
    ensures { IsNullWindowScore bound (value_of (T.scoring table.now) position) result }
{
    let empties = position.empties() - 1;
    let mut best = best_so_far;
    let mut unsearched = indices_of(children);
    while unsearched != 0 {
        let index = next_of(children, unsearched);
        unsearched = without(unsearched, index);
        let child = children[usize::from(index.number())];
        let score = -search_shallow(table, child.position, child.replies, empties, -1 - bound);
        if score > bound {
            return score;
        }
        best = best.max(score);
    }
    best
}
