//! What a position is worth after some plies, by alpha-beta search over the evaluation: a guess, as
//! the evaluation itself, that orders moves and begins searches. No contract depends on it.

ghost use Rattle.std.specs.Prelude.{◌≡◌, ◌<◌, ◌≤ℤ◌, pos, negsuc, All};
ghost use Rattle.othello_rules.specs.Answer.{IsScore};
ghost use Rattle.othello_bits.specs.Pos.{moves_of};
ghost use Rattle.endgame_search.specs.Children.{IsChildOf};

use crate::evaluation::evaluate;
use crate::move_order::{Child, add_children, next_child, sort_children};
use crate::tuning::{
    DISC, FEWEST_GUESSED, FEWEST_PLIES_TOGETHER, GUESS_LESS, LEFT_BY_GUESS, MOST_PLIES_OF_GUESS,
};
use arrayvec::ArrayVec;
use bound_table::{Advice, Foreseen};
use othello_bits::Pos;
use othello_rules::{GREATEST_SCORE, Scoring};

// A worth below that of each position.
const BELOW_ALL_WORTHS: i32 = -1_000_000;

// What a win of all squares is worth.
pub(crate) const GREATEST_WORTH: i32 = DISC * GREATEST_SCORE as i32;

// What a position is worth after some plies, if that is between `low` and `high`; otherwise a bound
// of it. A pass is no ply.
#[cycle(foresee)]
pub(crate) fn foresee<T: Advice>(
    table: &T,
    position: Pos,
    moves: u64,
    plies: u8,
    low: i32,
    high: i32,
) -> i32
    requires { moves ≡ moves_of position }
{
    if moves != 0 {
        return foresee_moves(table, position, moves, plies, low, high);
    }
    let passed = position.pass();
    let replies = passed.moves();
    if replies == 0 {
        return final_worth(position);
    }
    foresee_moves(
        table,
        passed,
        replies,
        plies,
        high.wrapping_neg(),
        low.wrapping_neg(),
    )
    .wrapping_neg()
}

// What a position is worth whose game is over.
fn final_worth(position: Pos) -> i32 {
    DISC * i32::from(position.final_score(Scoring::Winner))
}

// What a position is worth after some plies where the mover has a move.
#[cycle(foresee)]
#[inline(always)]
fn foresee_moves<T: Advice>(
    table: &T,
    position: Pos,
    moves: u64,
    plies: u8,
    low: i32,
    high: i32,
) -> i32
    requires { moves ≡ moves_of position }
{
    match plies {
        0 => evaluate(table, position, moves),
        1 => foresee_one_ply(table, position, moves, high),
        _ => foresee_by_list(table, position, moves, plies, low, high),
    }
}

// The same for two plies or more.
#[cycle(foresee)]
#[inline(never)]
fn foresee_by_list<T: Advice>(
    table: &T,
    position: Pos,
    moves: u64,
    plies: u8,
    low: i32,
    high: i32,
) -> i32
    requires moves { moves ≡ moves_of position }
    requires some { 0 < plies }
{
    let mut children = ArrayVec::<Child, 64>::new();
    add_children(position, moves, &mut children);
    sort_children(&mut children);
    foresee_children(table, position, &children, plies, low, high)
}

// The same by the listed children.
#[cycle(foresee)]
#[inline(always)]
fn foresee_children<T: Advice>(
    table: &T,
    position: Pos,
    children: &[Child],
    plies: u8,
    low: i32,
    high: i32,
) -> i32
    requires children { All (IsChildOf position) children.now }
    requires some { 0 < plies }
{
    let mut best = BELOW_ALL_WORTHS;
    for child in children {
        let least = low.max(best);
        let worth = foresee(
            table,
            child.position,
            child.replies,
            plies - 1,
            high.wrapping_neg(),
            least.wrapping_neg(),
        )
        .wrapping_neg();
        best = best.max(worth);
        if best >= high {
            return best;
        }
    }
    best
}

// The same for one ply, which needs no list: the moves are tried in the order of their squares.
#[inline(never)]
fn foresee_one_ply<T: Advice>(table: &T, position: Pos, moves: u64, high: i32) -> i32
    requires { moves ≡ moves_of position }
{
    let mut best = BELOW_ALL_WORTHS;
    let mut rest = moves;
    while rest != 0 {
        let next = next_child(position, rest);
        let child = next.child;
        let worth = foresee_no_ply(table, child.position, child.replies).wrapping_neg();
        best = best.max(worth);
        if best >= high {
            return best;
        }
        rest = next.rest;
    }
    best
}

// The same for no ply.
#[inline(always)]
fn foresee_no_ply<T: Advice>(table: &T, position: Pos, moves: u64) -> i32 {
    if moves != 0 {
        return evaluate(table, position, moves);
    }
    let passed = position.pass();
    let replies = passed.moves();
    if replies == 0 {
        return final_worth(position);
    }
    evaluate(table, passed, replies).wrapping_neg()
}

// The guess by a worth, which is not negative here.
fn guess_by(worth: u32) -> i8
    ensures least { pos 0 ≤ℤ result }
    ensures most { result ≤ℤ pos 64 }
{
    let discs = (worth / DISC as u32).min(GREATEST_SCORE as u32) as u8;
    (discs.saturating_sub(GUESS_LESS) / 2 * 2) as i8
}

// The number under which threads note what a move is worth for a guess; the plies from it on are
// added. `judged` has lower ones.
const GUESS: u16 = 1000;

// The same as `foresee`, by the work of all threads that guess the value of one position. They look
// at the first move together, each at others that no other one has begun, and then at what is left.
#[cycle(foresee_together)]
fn foresee_together<T: Advice>(
    table: &T,
    position: Pos,
    moves: u64,
    plies: u8,
    low: i32,
    high: i32,
) -> i32
    requires { moves ≡ moves_of position }
{
    let is_shared = table.foreseen(&position, GUESS) != Foreseen::Unkept;
    if moves == 0 || plies < FEWEST_PLIES_TOGETHER || !is_shared {
        return foresee(table, position, moves, plies, low, high);
    }
    let mut children = ArrayVec::<Child, 64>::new();
    add_children(position, moves, &mut children);
    sort_children(&mut children);
    foresee_shared_children(table, position, &children, plies, low, high)
}

// The same by the listed children, but at least `low`.
#[cycle(foresee_together)]
fn foresee_shared_children<T: Advice>(
    table: &T,
    position: Pos,
    children: &[Child],
    plies: u8,
    low: i32,
    high: i32,
) -> i32
    requires children { All (IsChildOf position) children.now }
    requires some { 0 < plies }
{
    let Some((first, others)) = children.split_first() else {
        return low;
    };
    let best = low.max(noted_worth(table, *first, plies, true, low, high));
    let best = best_noted(table, position, others, plies, false, best, high);
    best_noted(table, position, others, plies, true, best, high)
}

// The greatest worth of the moves to the listed children, or `low` if that is greater. Where
// `is_left` is false, those that another thread has begun are left out.
#[cycle(foresee_together)]
fn best_noted<T: Advice>(
    table: &T,
    position: Pos,
    children: &[Child],
    plies: u8,
    is_left: bool,
    low: i32,
    high: i32,
) -> i32
    requires children { All (IsChildOf position) children.now }
    requires some { 0 < plies }
{
    let mut best = low;
    for child in children {
        if best >= high {
            return best;
        }
        best = best.max(noted_worth(table, *child, plies, is_left, best, high));
    }
    best
}

// What a move is worth, as a thread has noted it, or as this one foresees it; but where `is_left` is
// false, and another thread has begun to look, a worth below all others. What is noted may be a bound
// under another window, so a guess may depend on those before it.
#[cycle(foresee_together)]
fn noted_worth<T: Advice>(
    table: &T,
    child: Child,
    plies: u8,
    is_left: bool,
    low: i32,
    high: i32,
) -> i32
    requires replies { child.replies ≡ moves_of child.position }
    requires some { 0 < plies }
{
    match table.foreseen(&child.position, GUESS + u16::from(plies)) {
        Foreseen::Worth(noted) => i32::from(noted) - GREATEST_WORTH,
        Foreseen::Begun if !is_left => BELOW_ALL_WORTHS,
        _ => foresee_move(table, child, plies, low, high),
    }
}

// What a move is worth, which is noted for other threads: from -`GREATEST_WORTH` to
// `GREATEST_WORTH`.
#[cycle(foresee_together)]
fn foresee_move<T: Advice>(table: &T, child: Child, plies: u8, low: i32, high: i32) -> i32
    requires replies { child.replies ≡ moves_of child.position }
    requires some { 0 < plies }
{
    let respect = GUESS + u16::from(plies);
    table.note_foreseen(&child.position, respect, Foreseen::Begun);
    let worth = foresee_together(
        table,
        child.position,
        child.replies,
        plies - 1,
        high.wrapping_neg(),
        low.wrapping_neg(),
    )
    .wrapping_neg()
    .clamp(-GREATEST_WORTH, GREATEST_WORTH);
    let noted = Foreseen::Worth((worth + GREATEST_WORTH) as u16);
    table.note_foreseen(&child.position, respect, noted);
    worth
}

// A guess of a position's value.
pub(crate) fn first_guess<T: Advice>(table: &T, position: Pos) -> i8
    ensures { IsScore result }
{
    let empties = position.empties();
    if empties < FEWEST_GUESSED {
        return 0;
    }
    let plies = (empties - LEFT_BY_GUESS).min(MOST_PLIES_OF_GUESS);
    let moves = position.moves();
    let worth = foresee_together(
        table,
        position,
        moves,
        plies,
        -GREATEST_WORTH,
        GREATEST_WORTH,
    );
    let guess = guess_by(worth.unsigned_abs());
    if worth < 0 { -guess } else { guess }
}
