//! Positions with their answers.

ghost use Rattle.std.specs.Prelude.{◌≡◌, ◌≢◌, ◌≤ℤ◌, ◌<ℤ◌, neg_ℤ};
ghost use Rattle.othello_rules.specs.declared.scoring.Scoring.TheVariants.{Sign};
ghost use Rattle.othello_rules.specs.Answer.{IsScore};
ghost use Rattle.std.proofs.Common.{sym};
ghost use Rattle.endgame_search.specs.Task.{TaskView};
ghost use Rattle.endgame_search.specs.Children.{AreChildrenOf};
ghost use Rattle.endgame_search.specs.BestMoves.{AreBestFrom};
ghost use Rattle.othello_bits.specs.Pos.{moves_of, value_of, answer_of, best_answer, HasNoMove};

use crate::alpha_beta::search_window;
use crate::foresight::first_guess;
use crate::judged::judge_children;
use crate::move_order::{Child, add_children, sort_children};
use crate::table_cutoff::{ABOVE_ALL_SCORES, BELOW_ALL_SCORES, possible_scores, store_if_deep};
use crate::task::Task;
use arrayvec::ArrayVec;
use bound_table::{Bounds, Range};
use othello_bits::{Pos, including};
use othello_rules::{Answer, Best, GREATEST_SCORE, Scoring};
use std::marker::Model;

/// A position with its answer under a scoring. Only `solve` and `confirm` make one. Its answer is
/// the one that the definitions give, by the invariant of this type. Contracts see the position and
/// the scoring.
#[derive(Clone, Copy, PartialEq, Eq, Debug)]
pub struct Solved {
    position: Pos,
    scoring: Scoring,
    answer: Answer,
}

impl Model for Solved {
    ghost Value = { TaskView };

    ghost view = { λ solved. record { position = solved.position; scoring = solved.scoring } };

    ghost invariant = { λ solved. solved.answer ≡ answer_of solved.scoring solved.position };

    ghost inverse = { λ problem. record {
      position = problem.position;
      scoring = problem.scoring;
      answer = answer_of problem.scoring problem.position;
    } };

    ghost inverse_ok = { λ solved exact. λ k. record {
      position = solved.position;
      scoring = solved.scoring;
      answer = sym exact k;
    } };
}

impl Solved {
    /// The position that is solved.
    pub fn pos(self) -> Pos
        ensures { result ≡ self.position }
    {
        self.position
    }

    /// The scoring under which the position is solved.
    pub fn scoring(self) -> Scoring
        ensures { result ≡ self.scoring }
    {
        self.scoring
    }

    /// The value of the position as the mover sees it, in discs, or 1, 0 or -1 under `Sign`; and
    /// what attains it: all best moves as a mask, in which A1 is bit 0, or a pass, or the end of
    /// the game.
    pub fn answer(self) -> Answer
        ensures { result ≡ answer_of self.scoring self.position }
    {
        self.answer
    }

    /// 1, 0 or -1 as the mover wins, draws or loses, whatever the scoring.
    pub fn outcome(self) -> i8
        ensures { result ≡ value_of Sign self.position }
    {
        self.answer().score.signum()
    }
}

/// An answer that is not trusted: the score of a position as the mover sees it, in discs, or 1, 0
/// or -1 under `Sign`, and what attains it. Any score and any mask are allowed.
#[derive(Clone, Copy, PartialEq, Eq, Debug)]
pub struct Claim {
    pub score: i8,
    pub best: Best,
}

/// The value of a position under the table's scoring, as the mover sees it: in discs from -64 to
/// 64, or 1, 0 or -1 under `Sign`. Positions with fewer than 10 empty squares are not stored.
pub fn exact_value<T: Bounds>(table: &T, position: Pos) -> i8
    ensures value { result ≡ value_of (T.scoring table.now) position }
    ensures in_range { IsScore result }
{
    let start = first_guess(table, position);
    let score = search_window(table, position, start, BELOW_ALL_SCORES, ABOVE_ALL_SCORES);
    store_if_deep(table, position, BELOW_ALL_SCORES, ABOVE_ALL_SCORES, score);
    score
}

/// Solves a task: returns its position with the exact value and all moves that attain it. That they
/// are exact is the invariant of `Solved`, and the clause of `Solved::answer`. The table must have
/// the scoring of the task.
pub fn solve<T: Bounds>(table: &T, task: Task) -> Solved
    requires { task.scoring ≡ T.scoring table.now }
    ensures { result ≡ task }
{
    let position = task.pos();
    if position.moves() == 0 {
        return solved_without_moves(table, task, first_guess(table, position));
    }
    let possible = possible_scores(table, position);
    // Null windows up to the guess find a value up to it, or a lower bound of a greater one.
    let guess = guess_within(table, position, possible);
    let low = search_window(table, position, guess, BELOW_ALL_SCORES, guess + 1);
    let high = if low > guess { possible.high() } else { low };
    let best = best_moves(table, position, low, high);
    solved_task(table, task, best.score, Best::Moves(best.squares))
}

/// Solves a task by testing a claim. The result is that of `solve` whatever the claim is, and comes
/// sooner if the claimed score is right: then at most one null window for each move, and one more
/// for each best move, find the answer, whatever is claimed of the moves. A score that is too low
/// saves less, and one that is too high costs a window for each move. The table must have the
/// scoring of the task.
pub fn confirm<T: Bounds>(table: &T, task: Task, claim: Claim) -> Solved
    requires { task.scoring ≡ T.scoring table.now }
    ensures { result ≡ task }
{
    let position = task.pos();
    if position.moves() == 0 {
        return solved_without_moves(table, task, claim.score);
    }
    if claim.score < -GREATEST_SCORE || claim.score > GREATEST_SCORE {
        return solve(table, task);
    }
    let found = best_moves(table, position, claim.score, GREATEST_SCORE);
    if found.squares == 0 {
        return solve(table, task);
    }
    solved_task(table, task, found.score, Best::Moves(found.squares))
}

// A guess of a position's value that lies in the range.
fn guess_within<T: Bounds>(table: &T, position: Pos, possible: Range) -> i8
    ensures { IsScore result }
{
    first_guess(table, position).clamp(possible.low(), possible.high())
}

// Solves a task whose position is a pass, or the end of the game. The search is shortest if the
// guess is the value.
fn solved_without_moves<T: Bounds>(table: &T, task: Task, guess: i8) -> Solved
    requires scoring { task.scoring ≡ T.scoring table.now }
    requires none { HasNoMove task.position }
    ensures { result ≡ task }
{
    let position = task.pos();
    let score = search_window(table, position, guess, BELOW_ALL_SCORES, ABOVE_ALL_SCORES);
    let best = if position.is_over() {
        Best::Over
    } else {
        Best::Pass
    };
    solved_task(table, task, score, best)
}

// The solved position of a task, from its value and what attains it. The table is offered the
// value.
fn solved_task<T: Bounds>(table: &T, task: Task, score: i8, best: Best) -> Solved
    requires scoring { task.scoring ≡ T.scoring table.now }
    requires value { score ≡ value_of task.scoring task.position }
    requires best { best ≡ best_answer task.scoring task.position }
    ensures { result ≡ task }
{
    store_if_deep(table, task.pos(), BELOW_ALL_SCORES, ABOVE_ALL_SCORES, score);
    Solved {
        position: task.pos(),
        scoring: task.scoring(),
        answer: Answer { score, best },
    }
}

// The mask of the best moves, and what they are worth.
#[derive(Clone, Copy)]
struct BestMoves {
    score: i8,
    squares: u64,
}

// The best moves of a position whose value is at most `high`, if it is at least `low`; otherwise no
// squares. Each move is asked whether it is worth as much as the best one before it, or `low` at
// first. Only if it is, it is asked how much more it is worth.
fn best_moves<T: Bounds>(table: &T, position: Pos, low: i8, high: i8) -> BestMoves
    requires some { moves_of position ≢ 0 }
    requires low { IsScore low }
    requires high { IsScore high }
    requires ordered { low ≤ℤ high }
    requires most { value_of (T.scoring table.now) position ≤ℤ high }
    ensures { AreBestFrom (T.scoring table.now) position low result }
{
    let mut children = ArrayVec::<Child, 64>::new();
    add_children(position, position.moves(), &mut children);
    judge_children(table, position, low, &mut children);
    sort_children(&mut children);
    best_children(table, position, &children, low, high)
}

// The same, by the children of the position.
fn best_children<T: Bounds>(
    table: &T,
    position: Pos,
    children: &[Child],
    low: i8,
    high: i8,
) -> BestMoves
    requires some { moves_of position ≢ 0 }
    requires children { AreChildrenOf position children.now }
    requires low { IsScore low }
    requires high { IsScore high }
    requires ordered { low ≤ℤ high }
    requires most { value_of (T.scoring table.now) position ≤ℤ high }
    ensures { AreBestFrom (T.scoring table.now) position low result }
{
    let mut score = low;
    let mut squares = 0;
    for child in children {
        let worth = worth_from(table, child.position, score, high);
        if worth > score {
            score = worth;
            squares = including(0, child.square);
        } else if worth == score {
            squares = including(squares, child.square);
        }
    }
    BestMoves { score, squares }
}

// What a move to a position is worth, if that is at least `low`; otherwise a score below `low`. It
// is at most `high`. The table is offered what this proves of the position.
fn worth_from<T: Bounds>(table: &T, after: Pos, low: i8, high: i8) -> i8
    requires low { IsScore low }
    requires high { IsScore high }
    requires ordered { low ≤ℤ high }
    requires most { neg_ℤ (value_of (T.scoring table.now) after) ≤ℤ high }
    ensures exact { low ≤ℤ result → result ≡ neg_ℤ (value_of (T.scoring table.now) after) }
    ensures less { result <ℤ low → neg_ℤ (value_of (T.scoring table.now) after) <ℤ low }
    ensures in_range { IsScore result }
{
    let score = search_window(table, after, -low, -high, 1 - low);
    store_if_deep(table, after, -high, 1 - low, score);
    -score
}
