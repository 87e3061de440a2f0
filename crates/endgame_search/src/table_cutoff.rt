//! Cutoffs from the table, and what a search stores there.

ghost use Rattle.std.specs.Prelude.{◌≡◌, ◌<ℤ◌, ◌≤ℤ◌, IfSome, All, pos};
ghost use Rattle.othello_rules.specs.Answer.{IsScore};
ghost use Rattle.othello_rules.specs.Limits.{least_score, greatest_score};
ghost use Rattle.othello_bits.specs.Pos.{PosView, value_of};
ghost use Rattle.bound_table.specs.Range.{range_view, IsTrueOf};
ghost use Rattle.endgame_search.specs.Children.{IsChildOf};
ghost use Rattle.endgame_search.specs.Windows.{IsBound, IsWindow, IsWithin};
ghost use Rattle.endgame_search.specs.Windows.{IsFailSoft, IsNullWindowScore};

use crate::move_order::Child;
use crate::tuning::{FEWEST_PROBED_AHEAD, FEWEST_STORED};
use bound_table::{Bounds, Range};
use othello_bits::Pos;
use othello_rules::{GREATEST_SCORE, Scoring};

// One more than the greatest score.
pub(crate) const ABOVE_ALL_SCORES: i8 = GREATEST_SCORE + 1;

// One less than the least score. As a best score it says that no move is searched yet.
pub(crate) const BELOW_ALL_SCORES: i8 = -GREATEST_SCORE - 1;

// The greatest score under a scoring. The least score is minus it. No window needs to reach beyond
// the two.
#[inline(always)]
pub(crate) fn score_limit(scoring: Scoring) -> i8
    ensures some { pos 1 ≤ℤ result }
    ensures most { result ≤ℤ pos 64 }
    ensures bounds { (p : PosView) → IsWithin result (value_of scoring p) }
{
    match scoring {
        Scoring::Winner | Scoring::Discs => GREATEST_SCORE,
        Scoring::Sign => 1,
    }
}

// The scores that the value of a position can be, by the scoring and by a probe of the table.
#[inline(always)]
pub(crate) fn possible_scores<T: Bounds>(table: &T, position: Pos) -> Range
    ensures { IsTrueOf (T.scoring table.now) position result }
{
    let limit = score_limit(table.scoring());
    let Some(range) = table.probe(&position) else {
        return Range::new(-limit, limit).unwrap();
    };
    Range::new(range.low().max(-limit), range.high().min(limit)).unwrap()
}

// Probes the table for a fail-soft score of the null window at the bound. There is one if the
// range found lies above the bound, or if no score of it does.
#[inline(always)]
pub(crate) fn probe_cutoff<T: Bounds>(table: &T, position: Pos, bound: i8) -> Option<i8>
    requires { IsBound bound }
    ensures { IfSome result (IsNullWindowScore bound (value_of (T.scoring table.now) position)) }
{
    let range = table.probe(&position)?;
    let lower = range.low();
    let upper = range.high();
    if lower > bound {
        return Some(lower);
    }
    if upper <= bound {
        return Some(upper);
    }
    None
}

// The range of the value that a search of the window proves by its score. A score at the lower end
// or below it is an upper bound. A score at the upper end or above it is a lower bound. A score
// between the ends is the value.
#[inline(always)]
fn proved_range(low: i8, high: i8, score: i8) -> Range
    requires { IsScore score }
    ensures at_most { score ≤ℤ low → result ≡ range_view least_score score }
    ensures at_least { low <ℤ score → high ≤ℤ score → result ≡ range_view score greatest_score }
    ensures exact { low <ℤ score → score <ℤ high → result ≡ range_view score score }
{
    if score <= low {
        return Range::new(-GREATEST_SCORE, score).unwrap();
    }
    if score >= high {
        return Range::new(score, GREATEST_SCORE).unwrap();
    }
    Range::new(score, score).unwrap()
}

// Stores the range that a search of the window proves by its score, unless too few squares are
// empty.
#[inline(always)]
pub(crate) fn store_if_deep<T: Bounds>(table: &T, position: Pos, low: i8, high: i8, score: i8)
    requires window { IsWindow low high }
    requires fail_soft { IsFailSoft low high (value_of (T.scoring table.now) position) score }
{
    if position.empties() >= FEWEST_STORED {
        store_always(table, position, low, high, score);
    }
}

// Stores the range that a search of the window proves by its score, however many squares are empty.
#[inline(never)]
pub(crate) fn store_always<T: Bounds>(table: &T, position: Pos, low: i8, high: i8, score: i8)
    requires window { IsWindow low high }
    requires fail_soft { IsFailSoft low high (value_of (T.scoring table.now) position) score }
{
    table.store(&position, proved_range(low, high, score));
}

// Probes the children for an enhanced transposition cutoff (Plaat, Schaeffer, Pijls and de Bruin,
// 1996): a move that is worth more than the bound, by the table's range of its child. Returns a
// lower bound of the move's worth. None if no child gives a cutoff, or too few squares are
// empty.
#[inline(always)]
pub(crate) fn enhanced_cutoff<T: Bounds>(
    table: &T,
    position: Pos,
    children: &[Child],
    bound: i8,
) -> Option<i8>
    requires children { All (IsChildOf position) children.now }
    requires bound { IsBound bound }
    ensures { IfSome result (IsNullWindowScore bound (value_of (T.scoring table.now) position)) }
{
    if position.empties() < FEWEST_PROBED_AHEAD {
        return None;
    }
    probe_each_child(table, position, children, bound)
}

// The same, however many squares are empty.
#[inline(never)]
fn probe_each_child<T: Bounds>(
    table: &T,
    position: Pos,
    children: &[Child],
    bound: i8,
) -> Option<i8>
    requires children { All (IsChildOf position) children.now }
    requires bound { IsBound bound }
    ensures { IfSome result (IsNullWindowScore bound (value_of (T.scoring table.now) position)) }
{
    for child in children {
        if let Some(range) = table.probe(&child.position) {
            let worth = -range.high();
            if worth > bound {
                return Some(worth);
            }
        }
    }
    None
}
