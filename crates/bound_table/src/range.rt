//! Ranges of scores.

ghost use Rattle.std.specs.Prelude.{◌≡◌, ◌↔◌, IsSome, IfSome};
ghost use Rattle.othello_rules.specs.Limits.{least_score, greatest_score};
ghost use Rattle.bound_table.specs.Range.{range_view, IsRange};

use othello_rules::GREATEST_SCORE;
use std::marker::Model;

/// The scores from `low` to `high`, both ends included, unlike those of `std::ops::Range`:
/// `-64 <= low <= high <= 64`. They are in discs. Under `Scoring::Sign` a value is 1, 0 or -1, and
/// its range may be wider than that.
#[derive(Clone, Copy, PartialEq, Eq, Debug)]
pub struct Range {
    low: i8,
    high: i8,
}

impl Model for Range {
    ghost use Rattle.bound_table.specs.Range.{RangeView, range_view, IsRange};

    ghost Value = { RangeView };

    ghost view = { λ r. range_view r.low r.high };

    ghost invariant = { λ r. IsRange (range_view r.low r.high) };

    ghost inverse = { λ i. record { low = i.low; high = i.high } };
}

impl Range {
    /// The range from `low` to `high`. None unless `-64 <= low <= high <= 64`.
    #[inline]
    pub fn new(low: i8, high: i8) -> Option<Range>
        ensures ordered { IsSome result ↔ IsRange (range_view low high) }
        ensures value { IfSome result (λ r. r ≡ range_view low high) }
    {
        if -GREATEST_SCORE <= low && low <= high && high <= GREATEST_SCORE {
            Some(Range { low, high })
        } else {
            None
        }
    }

    /// The range of all scores.
    #[inline]
    pub(crate) fn of_all_scores() -> Range
        ensures { result ≡ range_view least_score greatest_score }
    {
        Range {
            low: -GREATEST_SCORE,
            high: GREATEST_SCORE,
        }
    }

    /// The least score of the range.
    #[inline]
    pub fn low(self) -> i8
        ensures value { result ≡ self.low }
        ensures ordered { IsRange self }
    {
        self.low
    }

    /// The greatest score of the range.
    #[inline]
    pub fn high(self) -> i8
        ensures value { result ≡ self.high }
        ensures ordered { IsRange self }
    {
        self.high
    }
}
