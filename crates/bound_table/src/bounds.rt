//! The transposition table that a search probes and stores to.

ghost use Rattle.std.specs.Prelude.{◌≡◌, IfSome, IsNone};
ghost use Rattle.othello_rules.specs.declared.scoring.Scoring.{Scoring};
ghost use Rattle.bound_table.specs.Range.{IsTrueOf};

use crate::advice::Advice;
use crate::range::Range;
use othello_bits::Pos;
use othello_rules::Scoring;
use std::marker::Model;

/// A table of bounds: ranges of positions' values under one scoring. Two probes of one position may
/// differ: another thread may store between them, and any probe may show None.
pub trait Bounds: Advice {
    ghost scoring: { Self → Scoring };

    /// The scoring of the ranges shown and stored.
    fn scoring(&self) -> Scoring
        ensures { result ≡ scoring self.now };

    /// Probes the table for a position: a range that holds the position's value under the scoring,
    /// or None.
    fn probe(&self, position: &Pos) -> Option<Range>
        ensures { IfSome result (IsTrueOf (scoring self.now) position.now) };

    /// Offers a range that holds the position's value under the scoring. The table may keep it or
    /// not.
    fn store(&self, position: &Pos, range: Range)
        requires { IsTrueOf (scoring self.now) position.now range };
}

/// A table that keeps nothing.
#[derive(Clone, Copy, PartialEq, Eq, Debug)]
pub struct NoTable {
    scoring: Scoring,
}

impl Model for NoTable {
    ghost use Rattle.othello_rules.specs.declared.scoring.Scoring.{Scoring};

    ghost Value = { Scoring };

    ghost view = { λ table. table.scoring };

    ghost inverse = { λ scoring. record { scoring = scoring } };
}

impl NoTable {
    /// A table that keeps nothing, for searches under the scoring.
    pub fn new(scoring: Scoring) -> NoTable
        ensures { result ≡ scoring }
    {
        NoTable { scoring }
    }
}

impl Advice for NoTable {}

impl Bounds for NoTable {
    ghost scoring = { λ scoring. scoring };

    #[inline]
    fn scoring(&self) -> Scoring {
        self.scoring
    }

    #[inline]
    fn probe(&self, _position: &Pos) -> Option<Range>
        ensures { IsNone result }
    {
        None
    }

    #[inline]
    fn store(&self, _position: &Pos, _range: Range) {}
}
