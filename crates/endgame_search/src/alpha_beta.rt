//! Alpha-beta search of a position's value by null windows alone. The null window at a bound asks
//! whether the value is above the bound. Its fail-soft score, which each function `search..` that
//! takes a bound returns, is a lower bound of the value if it is above the bound, otherwise an
//! upper bound. A driver searches one null window after another until the value is known, or known
//! to lie outside a wider window (MTD(f): Plaat, Schaeffer, Pijls and de Bruin, 1996).

ghost use Rattle.std.specs.Prelude.{◌≡◌, ◌≢◌, ◌<◌, ◌≤ℤ◌, ◌<ℤ◌, ◌+ℤ◌, ℕ, true, length, pos, negsuc};
ghost use Rattle.othello_rules.specs.Masks.{in_mask};
ghost use Rattle.othello_bits.specs.Pos.{moves_of, empties_of, value_of, HasNoMove};
ghost use Rattle.othello_rules.specs.Answer.{IsScore};
ghost use Rattle.endgame_search.specs.Windows.{IsBound, IsWindow, IsFailSoft, IsNullWindowScore};
ghost use Rattle.endgame_search.specs.Children.{AreChildrenOf, UnlistedAreAtMost};

use crate::judged::judge_children;
use crate::move_order::{
    Child, ChildIndex, add_children, add_until_no_replies, indices_of, sort_children,
};
use crate::shallow::search_shallow;
use crate::stable_cutoff::stable_cutoff;
use crate::table_cutoff::{
    BELOW_ALL_SCORES, enhanced_cutoff, possible_scores, probe_cutoff, store_always, store_if_deep,
};
use crate::tuning::{FEWEST_SHARED_OUT, MOST_SHALLOW_EMPTIES, eldest_children};
use arrayvec::ArrayVec;
use bound_table::Bounds;
use othello_bits::{Pos, lowest, without};

/// Searches for the value of a position in the window from `low` to `high`, under the table's
/// scoring and as the mover sees it: in discs, or 1, 0 or -1 under `Sign`. The ends are from -65 to
/// 65, and `low` is less than `high`. The result is from -64 to 64. Strictly between the ends it is
/// the value. At `low` or below it is an upper bound of the value, at `high` or above a lower
/// bound. The position is probed first, and one probe ends the search if it shows the value, or
/// shows that the value lies at an end of the window or beyond it. Each position that is searched is
/// probed before its moves are, unless its game is over. The table is offered the range that the
/// result proves, however few squares are empty.
pub fn value_in<T: Bounds>(table: &T, position: Pos, low: i8, high: i8) -> i8
    requires least { negsuc 64 ≤ℤ low }
    requires ordered { low <ℤ high }
    requires most { high ≤ℤ pos 65 }
    ensures inside { low <ℤ result → result <ℤ high
        → result ≡ value_of (T.scoring table.now) position }
    ensures below { result ≤ℤ low → value_of (T.scoring table.now) position ≤ℤ result }
    ensures above { high ≤ℤ result → result ≤ℤ value_of (T.scoring table.now) position }
    ensures in_range { IsScore result }
{
    let score = search_window(table, position, 0, low, high);
    store_always(table, position, low, high, score);
    score
}

// A fail-soft score of the window from `low` to `high`. The first null window is at the guess. Each
// later one is at the lower bound that the last one proved, or at one below the upper bound. No
// null window lies outside the scores that are possible at first, so a score at the greatest or
// the least of them ends the search.
pub(crate) fn search_window<T: Bounds>(table: &T, position: Pos, guess: i8, low: i8, high: i8) -> i8
    requires { IsWindow low high }
    ensures { IsFailSoft low high (value_of (T.scoring table.now) position) result }
{
    let possible = possible_scores(table, position);
    let moves = position.moves();
    let mut lower = low.max(possible.low());
    let mut upper = high.min(possible.high());
    let mut score = guess;
    while lower < upper {
        let bound = score.max(lower).min(upper - 1);
        score = search(table, position, moves, bound);
        if score > bound {
            lower = score;
        } else {
            upper = score;
        }
    }
    if lower >= high { lower } else { upper }
}

// Searches a position, in `shallow` if few squares are empty.
#[cycle(search)]
#[inline(always)]
fn search<T: Bounds>(table: &T, position: Pos, moves: u64, bound: i8) -> i8
    requires moves { moves ≡ moves_of position }
    requires bound { IsBound bound }
    ensures { IsNullWindowScore bound (value_of (T.scoring table.now) position) result }
{
    let empties = position.empties();
    if empties <= MOST_SHALLOW_EMPTIES {
        return search_shallow(table, position, moves, empties, bound);
    }
    if moves != 0 {
        search_moves(table, position, moves, bound)
    } else {
        search_pass(table, position, bound)
    }
}

// Searches a position in which the mover has no move: a pass, or the end of the game.
#[cycle(search)]
#[inline(never)]
fn search_pass<T: Bounds>(table: &T, position: Pos, bound: i8) -> i8
    requires none { HasNoMove position }
    requires bound { IsBound bound }
    ensures { IsNullWindowScore bound (value_of (T.scoring table.now) position) result }
{
    let passed = position.pass();
    let replies = passed.moves();
    if replies == 0 {
        return position.final_score(table.scoring());
    }
    if let Some(score) = probe_cutoff(table, position, bound) {
        return score;
    }
    let score = -search_moves(table, passed, replies, -1 - bound);
    store_if_deep(table, position, bound, bound + 1, score);
    score
}

// Searches a position in which the mover has a move. A score that neither the first probe nor stable
// discs show is passed to `store_if_deep`.
#[cycle(search)]
fn search_moves<T: Bounds>(table: &T, position: Pos, moves: u64, bound: i8) -> i8
    requires moves { moves ≡ moves_of position }
    requires some { moves ≢ 0 }
    requires bound { IsBound bound }
    ensures { IsNullWindowScore bound (value_of (T.scoring table.now) position) result }
{
    if let Some(score) = probe_cutoff(table, position, bound) {
        return score;
    }
    if let Some(score) = stable_cutoff(position, bound) {
        return score;
    }
    let score = search_by_list(table, position, moves, bound);
    store_if_deep(table, position, bound, bound + 1, score);
    score
}

// Searches a position in which the mover has a move, by a list of its children.
#[cycle(search)]
#[inline(always)]
fn search_by_list<T: Bounds>(table: &T, position: Pos, moves: u64, bound: i8) -> i8
    requires moves { moves ≡ moves_of position }
    requires some { moves ≢ 0 }
    requires bound { IsBound bound }
    ensures { IsNullWindowScore bound (value_of (T.scoring table.now) position) result }
{
    if position.empties() < FEWEST_SHARED_OUT {
        search_by_mobility(table, position, moves, bound)
    } else {
        search_by_worth(table, position, moves, bound)
    }
}

// The room of a list of children by mobility: one for each empty square. The time to make a list is
// in proportion to its room.
const ROOM_BY_MOBILITY: usize = FEWEST_SHARED_OUT as usize - 1;

// Searches such a position in the order of the opponent's mobility. No child has less mobility than
// one without replies, so the first such child is searched before the remaining children are made.
#[cycle(search)]
#[inline(never)]
fn search_by_mobility<T: Bounds>(table: &T, position: Pos, moves: u64, bound: i8) -> i8
    requires moves { moves ≡ moves_of position }
    requires some { moves ≢ 0 }
    requires few { empties_of position < FEWEST_SHARED_OUT }
    requires bound { IsBound bound }
    ensures { IsNullWindowScore bound (value_of (T.scoring table.now) position) result }
{
    let mut children = ArrayVec::<Child, ROOM_BY_MOBILITY>::new();
    let Some(split) = add_until_no_replies(position, moves, &mut children) else {
        sort_children(&mut children);
        return search_children(table, position, &children, BELOW_ALL_SCORES, bound);
    };
    let first = split.child;
    let score = -search(table, first.position, first.replies, -1 - bound);
    if score > bound {
        return score;
    }
    add_children(position, split.rest, &mut children);
    sort_children(&mut children);
    search_children(table, position, &children, score, bound)
}

// Searches such a position in the order of what the children are worth, unless one of them gives an
// enhanced transposition cutoff.
#[cycle(search)]
#[inline(never)]
fn search_by_worth<T: Bounds>(table: &T, position: Pos, moves: u64, bound: i8) -> i8
    requires moves { moves ≡ moves_of position }
    requires some { moves ≢ 0 }
    requires bound { IsBound bound }
    ensures { IsNullWindowScore bound (value_of (T.scoring table.now) position) result }
{
    let mut children = ArrayVec::<Child, 64>::new();
    add_children(position, moves, &mut children);
    if let Some(score) = enhanced_cutoff(table, position, &children, bound) {
        return score;
    }
    judge_children(table, position, bound, &mut children);
    sort_children(&mut children);
    // Fewer than 64 squares are empty where there is a move.
    if children.len() >= 64 {
        return search_children(table, position, &children, BELOW_ALL_SCORES, bound);
    }
    search_shared_children(table, position, &children, bound)
}

// The index of the child to search next, of those in the mask `unsearched`. After the eldest children
// it is the first one that no thread is searching (ABDADA: Weill, 1996), otherwise the first one.
fn next_to_share<T: Bounds>(
    table: &T,
    children: &[Child],
    unsearched: u64,
    eldest: u8,
) -> ChildIndex
    requires some { unsearched ≢ 0 }
    requires listed { (i : ℕ) → in_mask unsearched i ≡ true → i < length children.now }
    ensures { in_mask unsearched result ≡ true }
{
    let first = lowest(unsearched);
    if first.number() < eldest {
        return first;
    }
    let mut rest = unsearched;
    while rest != 0 {
        let index = lowest(rest);
        if !table.is_begun(&children[usize::from(index.number())].position) {
            return index;
        }
        rest = without(rest, index);
    }
    first
}

// Searches the children of a position that other threads may be searching, too. If another thread
// is searching a child, this one leaves it for later: by then the table mostly shows what the child
// is worth. So threads share the children out among them.
#[cycle(search)]
#[inline(never)]
fn search_shared_children<T: Bounds>(table: &T, position: Pos, children: &[Child], bound: i8) -> i8
    requires children { AreChildrenOf position children.now }
    requires room { length children.now < 64 }
    requires some { moves_of position ≢ 0 }
    requires bound { IsBound bound }
    ensures { IsNullWindowScore bound (value_of (T.scoring table.now) position) result }
{
    let mut best = BELOW_ALL_SCORES;
    let mut unsearched = indices_of(children);
    let eldest = eldest_children(position.empties());
    while unsearched != 0 {
        let index = next_to_share(table, children, unsearched, eldest);
        unsearched = without(unsearched, index);
        let child = children[usize::from(index.number())];
        table.begin(&child.position);
        let score = -search(table, child.position, child.replies, -1 - bound);
        table.end(&child.position);
        if score > bound {
            return score;
        }
        best = best.max(score);
        // Another thread may have found what decides the window.
        if let Some(score) = probe_cutoff(table, position, bound) {
            return score;
        }
    }
    best
}

// Searches the listed children. `best_so_far` is the best score of the moves that are not listed, or
// `BELOW_ALL_SCORES` if there are none.
#[cycle(search)]
#[inline(always)]
fn search_children<T: Bounds>(
    table: &T,
    position: Pos,
    children: &[Child],
    best_so_far: i8,
    bound: i8,
) -> i8
    requires unlisted { UnlistedAreAtMost (T.scoring table.now) position best_so_far children.now }
    requires least { negsuc 64 ≤ℤ best_so_far }
    requires open { best_so_far ≤ℤ bound }
    requires some { moves_of position ≢ 0 }
    requires bound { IsBound bound }
    ensures { IsNullWindowScore bound (value_of (T.scoring table.now) position) result }
{
    let mut best = best_so_far;
    for child in children {
        let score = -search(table, child.position, child.replies, -1 - bound);
        if score > bound {
            return score;
        }
        best = best.max(score);
    }
    best
}
