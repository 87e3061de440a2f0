//! A position as C passes it, its task, and the position after a move.

ghost use Rattle.std.specs.Prelude.{◌≡◌, ◌≢◌, ◌↔◌, bit_and, Some, None, Err, IfOk, IfErr};
ghost use Rattle.othello_bits.specs.Pos.{play_of, IsMove};
ghost use Rattle.ffosolve_c.specs.declared.call_refusal.CallRefusal.TheVariants as refusal;
ghost use Rattle.ffosolve_c.specs.CValues.{c_position, discs_at};
ghost use Rattle.ffosolve_c.specs.Refusals.{position_refusal, call_status, IsOfPosition};

use crate::call_refusal::CallRefusal;
use endgame_search::Task;
use othello_bits::Pos;
use othello_rules::{Scoring, Square};

/// `own` is the mask of the mover's discs, and `opp` that of the other side's. Square n is bit n,
/// so A1 is bit 0 and H8 bit 63.
#[repr(C)]
#[derive(Clone, Copy, PartialEq, Eq)]
pub struct FfosolvePosition {
    pub own: u64,
    pub opp: u64,
}

/// The position of the two masks. `SharedSquare` if they share a square.
pub fn position_of(position: FfosolvePosition) -> Result<Pos, CallRefusal>
    ensures apart { IfOk result (λ p. bit_and position.own position.opp ≡ 0) }
    ensures value { IfOk result (λ p. p ≡ discs_at position) }
    ensures shared { IfErr result (λ r. bit_and position.own position.opp ≢ 0) }
    ensures refused { IfErr result (λ r. r ≡ refusal.SharedSquare) }
{
    match Pos::new(position.own, position.opp) {
        Some(position) => Ok(position),
        None => Err(CallRefusal::SharedSquare),
    }
}

/// The task of the position under a scoring. `SharedSquare` if the masks share a square;
/// `TooManyEmpties` if more than `Task::MOST_EMPTIES` squares are empty.
#[tactic(auto, unfolding(crate::specs::Refusals::position_refusal))]
pub fn task_of(position: FfosolvePosition, scoring: Scoring) -> Result<Task, CallRefusal>
    ensures good { IfOk result (λ task. position_refusal position ≡ None) }
    ensures task { IfOk result (λ task.
        task ≡ record { position = discs_at position; scoring = scoring }) }
    ensures refused { IfErr result (λ r. position_refusal position ≡ Some r) }
    ensures kinds { IfErr result (λ r. IsOfPosition (call_status r)) }
    ensures not_memory { IfErr result (λ r. r ≢ refusal.NoMemory) }
{
    let position = position_of(position)?;
    match Task::new(position, Task::MOST_EMPTIES, scoring) {
        Ok(task) => Ok(task),
        Err(_) => Err(CallRefusal::TooManyEmpties),
    }
}

/// The position after the mover's move to `square`, 0 to 63. `SharedSquare` if the masks share a
/// square; `NoMove` if the mover can't move to the square.
pub fn play_move(position: FfosolvePosition, square: u8) -> Result<FfosolvePosition, CallRefusal>
    ensures apart { IfOk result (λ after. bit_and position.own position.opp ≡ 0) }
    ensures legal { IfOk result (λ after. IsMove (discs_at position) square) }
    ensures after { IfOk result (λ after. after ≡ c_position (play_of (discs_at position) square)) }
    ensures shared { (result ≡ Err refusal.SharedSquare) ↔ (bit_and position.own position.opp ≢ 0) }
    ensures no_move { result ≡ Err refusal.NoMove → IsMove (discs_at position) square → ⊥ }
    ensures others { IfErr result (λ r. r ≢ refusal.SharedSquare → r ≡ refusal.NoMove) }
{
    let position = position_of(position)?;
    let Some(square) = Square::new(square) else {
        return Err(CallRefusal::NoMove);
    };
    match position.play(square) {
        Some(after) => Ok(FfosolvePosition {
            own: after.own(),
            opp: after.opp(),
        }),
        None => Err(CallRefusal::NoMove),
    }
}
