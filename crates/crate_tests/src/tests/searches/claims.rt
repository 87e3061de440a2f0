//! The worked answers by search: values in windows, right and wrong claims, outcomes, and the limits
//! of tasks.

ghost use Rattle.std.specs.Prelude.{◌≡◌};

use super::{TWENTY_EMPTY_SQUARES, UNEQUAL_CORNERS, WORKED, pos_of, task_of};
use bound_table::{BoundTable, Bounds, NoTable};
use endgame_search::{Claim, Solved, Task, TooMany, confirm, solve, value_in};
use othello_bits::Pos;
use othello_rules::{Best, Scoring, Side};
use std::test::Fail;

#[test]
fn the_value_in_windows(rt: HostRuntime) {
    let position = pos_of(&rt, UNEQUAL_CORNERS, Side::Black);
    let table = NoTable::new(Scoring::Winner);
    assert!(rt; value_in(&table, position, -65, 65) == 62);
    assert!(rt; value_in(&table, position, 61, 63) == 62);
    // At an end of the window the result is a bound alone.
    assert!(rt; value_in(&table, position, 62, 65) == 62);
    assert!(rt; value_in(&table, position, 0, 1) >= 1);
}

// What is claimed of each position: scores that are too high or too low by this much, some fixed
// scores, and moves.
const CHANGES: [i8; 7] = [0, 1, -1, 2, -2, 127, -127];

const SCORES: [i8; 3] = [-128, 52, 100];

const BESTS: [Best; 7] = [
    Best::Moves(0),
    Best::Moves(0x1),
    Best::Moves(0x2),
    Best::Moves(0x80),
    Best::Moves(0x81),
    Best::Pass,
    Best::Over,
];

fn has_answer(solved: Solved, score: i8, best: Best) -> bool {
    solved.answer().score == score && solved.answer().best == best
}

// Whether `solve` and each claim lead to the answer.
fn is_answered<T: Bounds>(table: &T, task: Task, score: i8, best: Best) -> bool
    requires { task.scoring ≡ T.scoring table.now }
{
    let close = CHANGES.map(|change| score.saturating_add(change));
    for claimed in BESTS {
        for claimed_score in close.into_iter().chain(SCORES) {
            let claim = Claim {
                score: claimed_score,
                best: claimed,
            };
            if !has_answer(confirm(table, task, claim), score, best) {
                return false;
            }
        }
    }
    has_answer(solve(table, task), score, best)
}

// No table, one that keeps nothing, a new one, and one that is full of the position's value.
#[test]
fn claims_change_no_answer(rt: HostRuntime) -> Result<(), Fail> {
    for (discs, side, scores, bests) in WORKED {
        for i in 0..3 {
            let (score, best) = (scores[i], bests[i]);
            let task = task_of(&rt, pos_of(&rt, discs, side), Scoring::ALL[i]);
            assert!(rt; is_answered(&NoTable::new(task.scoring()), task, score, best));
            let empty = BoundTable::new(rt.alloc(), 0, task.scoring())?;
            assert!(rt; is_answered(&empty, task, score, best));
            let new = BoundTable::new(rt.alloc(), 64, task.scoring())?;
            assert!(rt; is_answered(&new, task, score, best));
            let full = BoundTable::new(rt.alloc(), 1, task.scoring())?;
            assert!(rt; value_in(&full, task.pos(), -65, 65) == score);
            assert!(rt; is_answered(&full, task, score, best));
        }
    }
    Ok(())
}

#[test]
fn outcomes_are_signs(rt: HostRuntime) {
    for (discs, side, scores, _) in WORKED {
        for scoring in Scoring::ALL {
            let task = task_of(&rt, pos_of(&rt, discs, side), scoring);
            assert!(rt; solve(&NoTable::new(task.scoring()), task).outcome() == scores[2]);
        }
    }
}

// The empty squares of a task, the limit, and the refusal.
#[test]
fn tasks_have_few_empty_squares(rt: HostRuntime) {
    let sixty = Pos::new(0x1, 0xe).expect(&rt, "no square is taken twice");
    let sixty_one = Pos::new(0x1, 0x6).expect(&rt, "no square is taken twice");
    let twenty = pos_of(&rt, TWENTY_EMPTY_SQUARES, Side::Black);
    let rows = [
        (twenty, 19, Some(TooMany(20))),
        (twenty, 20, None),
        (sixty, 59, Some(TooMany(60))),
        (sixty, 60, None),
        (sixty, 255, None),
        (sixty_one, 60, Some(TooMany(61))),
        (sixty_one, 255, Some(TooMany(61))),
    ];
    for (position, limit, refusal) in rows {
        assert!(rt; Task::new(position, limit, Scoring::Winner).err() == refusal);
    }
}
