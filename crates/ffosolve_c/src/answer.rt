//! Answers and claims as C reads and writes them.

ghost use Rattle.std.specs.Prelude.{◌≡◌, ◌≤ℤ◌, pos, IfSome, IsSome};
ghost use Rattle.ffosolve_c.specs.CValues.{kind_of, moves_in, c_answer, IsPossible};

use endgame_search::Claim;
use othello_rules::{Answer, Best, GREATEST_SCORE};

/// The score of a position as the mover sees it, and what attains it. `score` is in discs from -64
/// to 64, or 1, 0 or -1 under `Sign`. `kind` is 0 for moves, 1 for a pass and 2 for the end of the
/// game. With kind 0 `best` is the mask of all best moves: square n is bit n, so A1 is bit 0 and H8
/// bit 63. With kinds 1 and 2 `best` is 0 in an answer, and is not read in a claim.
#[repr(C)]
#[derive(Clone, Copy, PartialEq, Eq)]
pub struct FfosolveAnswer {
    pub score: i32,
    pub kind: i32,
    pub best: u64,
}

fn kind_of(best: Best) -> i32
    ensures { result ≡ kind_of best }
{
    match best {
        Best::Moves(_) => 0,
        Best::Pass => 1,
        Best::Over => 2,
    }
}

fn moves_in(best: Best) -> u64
    ensures { result ≡ moves_in best }
{
    match best {
        Best::Moves(mask) => mask,
        Best::Pass | Best::Over => 0,
    }
}

/// An answer as C reads it: the score, the kind, and the mask of the best moves or 0.
pub fn c_answer(answer: Answer) -> FfosolveAnswer
    ensures { result ≡ c_answer answer }
{
    FfosolveAnswer {
        score: i32::from(answer.score),
        kind: kind_of(answer.best),
        best: moves_in(answer.best),
    }
}

// The best moves, the pass or the end of the game of a claim. None if its kind is not 0, 1 or 2.
fn claimed_best(kind: i32, moves: u64) -> Option<Best>
    ensures kind { IfSome result (λ best. kind_of best ≡ kind) }
    ensures moves { IfSome result (λ best. kind ≡ pos 0 → moves_in best ≡ moves) }
    ensures known { pos 0 ≤ℤ kind → kind ≤ℤ pos 2 → IsSome result }
{
    match kind {
        0 => Some(Best::Moves(moves)),
        1 => Some(Best::Pass),
        2 => Some(Best::Over),
        _ => None,
    }
}

/// The claim as a search reads it. None if its kind is not 0, 1 or 2, or its score is not from
/// -64 to 64: such a claim can't be right.
pub fn possible_claim(claim: FfosolveAnswer) -> Option<Claim>
    ensures possible { IsPossible claim → IsSome result }
    ensures score { IfSome result (λ found. found.score ≡ claim.score) }
    ensures kind { IfSome result (λ found. kind_of found.best ≡ claim.kind) }
    ensures moves { IfSome result (λ found. claim.kind ≡ pos 0 → moves_in found.best ≡ claim.best) }
{
    let greatest = i32::from(GREATEST_SCORE);
    if claim.score < -greatest || claim.score > greatest {
        return None;
    }
    let best = claimed_best(claim.kind, claim.best)?;
    Some(Claim {
        score: claim.score as i8,
        best,
    })
}
