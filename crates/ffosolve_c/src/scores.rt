//! The score of every move, at its square's number.

ghost use Rattle.std.specs.Prelude.{◌≡◌, ◌≢◌, Some, None, length, map, IfOk, IfErr, OnErr};
ghost use Rattle.othello_rules.specs.Board.{squares};
ghost use Rattle.othello_bits.specs.Pos.{moves_of};
ghost use Rattle.ffosolve_c.specs.declared.call_refusal.CallRefusal.TheVariants as refusal;
ghost use Rattle.ffosolve_c.specs.CValues.{discs_at, score_at, scores_at, AreScores};
ghost use Rattle.ffosolve_c.specs.Refusals.{position_refusal, request_refusal, IsRefusal};

use crate::call_refusal::CallRefusal;
use crate::position::{FfosolvePosition, task_of};
use crate::table::{table_of, table_scoring};
use bound_table::{BoundTable, Bounds};
use move_scores::score_move;
use othello_bits::Pos;
use othello_rules::{Square, has_square};
use std::alloc::Global;

/// What each move of a position is worth. `scores` has the score of each move, as the mover sees it,
/// at its square's number, and 127 at the other squares. `moves` is the mask of the moves: square n
/// is bit n.
#[repr(C)]
#[derive(Clone, Copy)]
pub struct FfosolveMoveScores {
    pub scores: [i8; 64],
    pub moves: u64,
}

// The score of the move to the square as the mover sees it, or 127 if it is not a move.
fn score_at(table: &BoundTable, position: Pos, square: Square) -> i8
    ensures { result ≡ score_at table.now.scoring position square }
{
    if has_square(position.moves(), square) {
        score_move(table, position, square)
    } else {
        127
    }
}

// Writes at each square's number the score of the move there, or 127 if it is not a move.
fn fill_scores(table: &BoundTable, position: Pos, scores: &mut [i8])
    requires { length scores.old ≡ 64 }
    ensures { scores.new ≡ map (score_at table.now.scoring position) squares }
{
    let squares = Square::all();
    for i in 0..64 {
        scores[i] = score_at(table, position, squares[i]);
    }
}

/// The scores of a position that is not refused.
pub fn scores_at(table: &BoundTable, position: FfosolvePosition) -> FfosolveMoveScores
    requires { position_refusal position ≡ None }
    ensures { result ≡ scores_at table.now.scoring position }
{
    match task_of(position, table.scoring()) {
        Ok(task) => {
            let mut scores = [0; 64];
            fill_scores(table, task.pos(), &mut scores);
            FfosolveMoveScores {
                scores,
                moves: task.pos().moves(),
            }
        }
        Err(_) => unreachable!(),
    }
}

/// Returns the mask of the mover's moves, and writes the score of each move, as the mover sees it,
/// at its square's number, with 127 at the other squares. `Err` is the first refusal of the request
/// and leaves `scores` as it was.
pub fn score_all(
    alloc: Global,
    position: FfosolvePosition,
    scoring: u32,
    entries: usize,
    scores: &mut [i8; 64],
) -> Result<u64, CallRefusal>
    ensures good { IfOk result (λ moves. request_refusal scoring entries position ≡ None) }
    ensures moves { IfOk result (λ moves. moves ≡ moves_of (discs_at position)) }
    ensures scores { IfOk result (λ moves. AreScores scoring position scores.new) }
    ensures refused { IfErr result (IsRefusal (request_refusal scoring entries position)) }
    ensures without_memory { entries ≡ 0 → IfErr result (λ r. r ≢ refusal.NoMemory) }
    ensures unchanged { OnErr result (scores.new ≡ scores.old) }
{
    let scoring = table_scoring(scoring, entries)?;
    let task = task_of(position, scoring)?;
    let table = table_of(alloc, entries, scoring)?;
    fill_scores(&table, task.pos(), scores);
    Ok(task.pos().moves())
}
