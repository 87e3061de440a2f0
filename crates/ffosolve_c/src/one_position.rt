//! The answer of one position.

ghost use Rattle.std.specs.Prelude.{◌≡◌, ◌≢◌, None, IfOk, IfErr};
ghost use Rattle.othello_bits.specs.Pos.{answer_of};
ghost use Rattle.ffosolve_c.specs.declared.call_refusal.CallRefusal.TheVariants as refusal;
ghost use Rattle.ffosolve_c.specs.CValues.{IsAnswer};
ghost use Rattle.ffosolve_c.specs.Refusals.{request_refusal, IsRefusal};

use crate::answer::{FfosolveAnswer, c_answer};
use crate::call_refusal::CallRefusal;
use crate::position::{FfosolvePosition, task_of};
use crate::table::{table_of, table_scoring};
use bound_table::{BoundTable, Bounds};
use endgame_search::{Claim, Task, confirm, solve};
use othello_rules::Answer;
use std::alloc::Global;

// The answer of a task, by a search that tests the claim first if there is one.
fn find_answer(table: &BoundTable, task: Task, claim: Option<Claim>) -> Answer
    requires { task.scoring ≡ table.now.scoring }
    ensures { result ≡ answer_of task.scoring task.position }
{
    let solved = match claim {
        Some(claim) => confirm(table, task, claim),
        None => solve(table, task),
    };
    solved.answer()
}

/// The answer of a position, by a search over a new table of `entries` entries that tests the claim
/// first if there is one. `Err` is the first refusal of the request.
pub fn answer_one(
    alloc: Global,
    position: FfosolvePosition,
    scoring: u32,
    entries: usize,
    claim: Option<Claim>,
) -> Result<FfosolveAnswer, CallRefusal>
    ensures good { IfOk result (λ answer. request_refusal scoring entries position ≡ None) }
    ensures answer { IfOk result (IsAnswer scoring position) }
    ensures refused { IfErr result (IsRefusal (request_refusal scoring entries position)) }
    ensures without_memory { entries ≡ 0 → IfErr result (λ r. r ≢ refusal.NoMemory) }
{
    let scoring = table_scoring(scoring, entries)?;
    let task = task_of(position, scoring)?;
    let table = table_of(alloc, entries, scoring)?;
    Ok(c_answer(find_answer(&table, task, claim)))
}
