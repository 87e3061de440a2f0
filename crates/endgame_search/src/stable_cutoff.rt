//! Cutoffs by the opponent's stable discs.

ghost use Rattle.std.specs.Prelude.{◌≤◌, ◌+◌, ◌*◌, IfSome};
ghost use Rattle.othello_rules.specs.declared.scoring.Scoring.{Scoring};
ghost use Rattle.othello_bits.specs.Pos.{value_of};
ghost use Rattle.endgame_search.specs.Windows.{IsBound, IsNullWindowScore};

use crate::tuning::LEAST_COUNTED_BOUND;
use othello_bits::Pos;

// An upper bound of the value, under any scoring, where so many discs of the opponent stay. It is at
// least 1, since the opponent's win is -1 under `Sign`.
#[inline(always)]
fn most_against(discs: u32) -> u8
    ensures some { 1 ≤ result }
    ensures covers { 64 ≤ result + 2 * discs }
    ensures most { result ≤ 64 }
{
    if discs < 32 { 64 - 2 * discs as u8 } else { 1 }
}

// A fail-soft score of the null window at the bound, if the opponent's stable discs show that the
// value is at most the bound.
#[inline(always)]
pub(crate) fn stable_cutoff(position: Pos, bound: i8) -> Option<i8>
    ensures { IfSome result (λ s. (g : Scoring) → IsNullWindowScore bound (value_of g position) s) }
{
    if bound < LEAST_COUNTED_BOUND || most_against(position.opp().count_ones()) as i8 > bound {
        return None;
    }
    let most = most_against(position.stable_opp().count_ones()) as i8;
    if most <= bound { Some(most) } else { None }
}
