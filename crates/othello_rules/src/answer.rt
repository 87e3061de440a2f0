//! The answer of a position.

use std::marker::Model;

/// What attains the score of a position.
#[derive(Clone, Copy, PartialEq, Eq, Debug)]
pub enum Best {
    /// The mask of all best moves: square n is bit n, so A1 is bit 0 and H8 bit 63. In an `Answer`
    /// it is not 0.
    Moves(u64),
    /// The mover has no move and the opponent has one.
    Pass,
    /// Neither side has a move.
    Over,
}

/// The score of a position as the mover sees it, and what attains it. The score is in discs from
/// -64 to 64, or 1, 0 or -1 under `Scoring::Sign`.
#[derive(Clone, Copy, PartialEq, Eq, Debug)]
pub struct Answer {
    pub score: i8,
    pub best: Best,
}

impl Model for Answer {
    ghost use Rattle.othello_rules.specs.Answer.{AnswerView, IsScore, IsBest};

    ghost Value = { AnswerView };

    ghost view = { λ a. record { score = a.score; best = a.best } };

    ghost invariant = { λ a. IsScore a.score × IsBest a.best };

    ghost inverse = { λ o. record { score = o.score; best = o.best } };
}
