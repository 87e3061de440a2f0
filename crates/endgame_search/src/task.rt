//! Positions to be solved.

ghost use Rattle.std.specs.Prelude.{◌≡◌, ◌≤◌, ◌↔◌, min, IsTrue, IsOk, IfOk, IfErr};
ghost use Rattle.othello_bits.specs.Pos.{empties_of};
ghost use Rattle.endgame_search.specs.Limits.{fewest_shared_empties, most_empties};
ghost use Rattle.endgame_search.specs.Task.{TaskView};

use crate::tuning::FEWEST_SHARED_EMPTIES;
use othello_bits::Pos;
use othello_rules::Scoring;
use std::marker::Model;
use thiserror::Error;

/// A position to be solved under a scoring. It has at most 60 empty squares.
#[derive(Clone, Copy, PartialEq, Eq, Debug)]
pub struct Task {
    position: Pos,
    scoring: Scoring,
}

impl Model for Task {
    ghost Value = { TaskView };

    ghost view = { λ task. record { position = task.position; scoring = task.scoring } };

    ghost invariant = { λ task. empties_of task.position ≤ most_empties };

    ghost inverse = { λ problem. record {
      position = problem.position;
      scoring = problem.scoring;
    } };
}

/// The refusal of a position as a task: the number of its empty squares, which is above the limit.
#[derive(Clone, Copy, PartialEq, Eq, Debug, Error)]
#[error("{0} empty squares are too many")]
pub struct TooMany(pub u8);

impl Task {
    /// The greatest number of empty squares of a task.
    pub const MOST_EMPTIES: u8 = 60;

    /// The fewest empty squares of a task that threads solve together. One thread solves a task with
    /// fewer in less time than others take to join it.
    pub const FEWEST_SHARED_EMPTIES: u8 = FEWEST_SHARED_EMPTIES;

    /// The task of a position under a scoring. `TooMany` if the position has more than `limit`
    /// empty squares, or more than 60.
    pub fn new(position: Pos, limit: u8, scoring: Scoring) -> Result<Task, TooMany>
        ensures when { IsOk result ↔ (empties_of position ≤ min limit most_empties) }
        ensures task { IfOk result
            (λ task. task ≡ record { position = position; scoring = scoring }) }
        ensures refused { IfErr result (λ many. many.0 ≡ empties_of position) }
    {
        let empties = position.empties();
        if empties <= limit.min(Self::MOST_EMPTIES) {
            Ok(Task { position, scoring })
        } else {
            Err(TooMany(empties))
        }
    }

    /// The position to be solved. It has at most 60 empty squares.
    pub fn pos(self) -> Pos
        ensures value { result ≡ self.position }
        ensures few_empties { empties_of result ≤ most_empties }
    {
        self.position
    }

    /// The scoring under which the position is to be solved.
    pub fn scoring(self) -> Scoring
        ensures { result ≡ self.scoring }
    {
        self.scoring
    }

    /// Whether threads that solve the task at once over one table are faster together than one of
    /// them alone: whether its position has at least `FEWEST_SHARED_EMPTIES` empty squares.
    pub fn is_worth_sharing(self) -> bool
        ensures { IsTrue result ↔ (fewest_shared_empties ≤ empties_of self.position) }
    {
        self.pos().empties() >= Self::FEWEST_SHARED_EMPTIES
    }
}
