//! The listed moves of a line against the scores of its position.

ghost use Rattle.std.specs.Prelude.{◌≡◌, option_map};
ghost use Rattle.std.specs.List.{find};
ghost use Rattle.scored_lines.specs.Checks.{asks_for_best, is_greatest, is_left_out, same_move};
ghost use Rattle.scored_lines.specs.Checks.{score_in, wrong_in};

use obf_text::ListedMove;

/// A listed move with a wrong score: `score` is the move's score in the position, as the side to
/// move sees it, and `claimed` the listed one. `score` is None if the position has no such move.
#[derive(Clone, Copy, PartialEq, Eq, Debug)]
pub struct Wrong {
    pub listed: ListedMove,
    pub claimed: i8,
    pub score: Option<i8>,
}

// The field of a move among the scores of a position. It is a function of its own so that a
// contract states what is found.
fn field_in(scores: &[(ListedMove, i8)], listed: ListedMove) -> Option<&(ListedMove, i8)>
    ensures { option_map (λ f. f.now) result ≡ find (λ f. same_move f.0 listed) scores.now }
{
    scores.iter().find(|field| field.0 == listed)
}

// The score of a move among the scores of a position. None if the position has no such move.
fn score_in(scores: &[(ListedMove, i8)], listed: ListedMove) -> Option<i8>
    ensures { result ≡ score_in scores.now listed }
{
    let field = field_in(scores, listed)?;
    Some(field.1)
}

/// Compares a listed move and its score with the scores of the position's moves. None if the
/// move has this score.
pub fn wrong_in(scores: &[(ListedMove, i8)], field: &(ListedMove, i8)) -> Option<Wrong>
    ensures { result ≡ wrong_in scores.now field.now }
{
    match score_in(scores, field.0) {
        None => Some(Wrong {
            listed: field.0,
            claimed: field.1,
            score: None,
        }),
        Some(score) => {
            if score == field.1 {
                return None;
            }
            Some(Wrong {
                listed: field.0,
                claimed: field.1,
                score: Some(score),
            })
        }
    }
}

// Whether no move has a greater score.
fn is_greatest(scores: &[(ListedMove, i8)], score: i8) -> bool
    ensures { result ≡ is_greatest scores.now score }
{
    scores.iter().all(|field| field.1 <= score)
}

/// Whether `field`, one of the position's scores, is that of a best move which is not listed. It is
/// never that of a pass or of the end of the game, which are no moves to choose from.
pub(crate) fn is_left_out(
    scores: &[(ListedMove, i8)],
    listed: &[(ListedMove, i8)],
    field: &(ListedMove, i8),
) -> bool
    ensures { result ≡ is_left_out scores.now listed.now field.now }
{
    match field.0 {
        ListedMove::At(_) => { is_greatest(scores, field.1) && score_in(listed, field.0).is_none() }
        _ => false,
    }
}

/// Whether every best move is asked for of a line that lists these moves: under `complete`, if
/// it lists any.
pub(crate) fn asks_for_best(complete: bool, listed: &[(ListedMove, i8)]) -> bool
    ensures { result ≡ asks_for_best complete listed.now }
{
    complete && !listed.is_empty()
}
