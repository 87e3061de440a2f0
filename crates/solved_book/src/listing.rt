//! What the listed fields of a line claim.

ghost use Rattle.std.specs.Prelude.{◌≡◌, ◌↔◌, ◌||◌, ◌<◌, ℕ, [], IsNone, IfSome};
ghost use Rattle.std.specs.List.{list_any};
ghost use Rattle.othello_rules.specs.Masks.{in_mask};
ghost use Rattle.solved_book.specs.Listing.{best_by, listed_best, claim_of, field_lists_pass};
ghost use Rattle.solved_book.specs.Listing.{field_lists_square, listed_squares};

use endgame_search::Claim;
use obf_text::{ListedMove, greatest_score};
use othello_bits::including;
use othello_rules::Best;

// The mask `squares`, with the bit of the field's square if the field lists one with `score`.
fn with_listed(squares: u64, field: &(ListedMove, i8), score: i8) -> u64
    ensures { (q : ℕ) → q < 64
        → in_mask result q ≡ (field_lists_square score q field.now || in_mask squares q) }
{
    let (listed_move, listed_score) = *field;
    match listed_move {
        ListedMove::At(square) => {
            if listed_score == score {
                including(squares, square)
            } else {
                squares
            }
        }
        _ => squares,
    }
}

// The mask of the squares that are listed with a score.
fn listed_squares(listed: &[(ListedMove, i8)], score: i8) -> u64
    ensures { result ≡ listed_squares score listed.now }
{
    let mut squares = 0u64;
    for field in listed {
        squares = with_listed(squares, field, score);
    }
    squares
}

fn field_lists_pass(listed_move: ListedMove, listed_score: i8, score: i8) -> bool
    ensures { result ≡ field_lists_pass score (listed_move, listed_score) }
{
    match listed_move {
        ListedMove::Pass => listed_score == score,
        _ => false,
    }
}

// Whether a pass is listed with a score.
fn is_pass_listed(listed: &[(ListedMove, i8)], score: i8) -> bool
    ensures { result ≡ list_any (field_lists_pass score) listed.now }
{
    listed.iter().any(|(listed_move, listed_score)| field_lists_pass(
        *listed_move,
        *listed_score,
        score,
    ))
}

// The squares that are listed with a score; if there is none, a pass if one is listed with it,
// otherwise the end of the game.
fn listed_best(listed: &[(ListedMove, i8)], score: i8) -> Best
    ensures { result ≡ listed_best score listed.now }
{
    let squares = listed_squares(listed, score);
    if squares != 0 {
        return Best::Moves(squares);
    }
    if is_pass_listed(listed, score) {
        Best::Pass
    } else {
        Best::Over
    }
}

/// The greatest listed score, and the moves, the pass or the end of the game that is claimed with
/// it. None if nothing is listed.
pub(crate) fn claim_of(listed: &[(ListedMove, i8)]) -> Option<Claim>
    ensures none { IsNone result ↔ (listed.now ≡ []) }
    ensures claim { IfSome result (λ claim. claim ≡ claim_of listed.now) }
{
    let score = greatest_score(listed)?;
    Some(Claim {
        score,
        best: listed_best(listed, score),
    })
}
