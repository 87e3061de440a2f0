//! The answers, or the scores of all moves, of many positions.

ghost use Rattle.std.specs.Prelude.{◌≡◌, ◌≢◌, ◌≤◌, Some, None, IsNone, IfOk, IfSome, IfErr, OnOk, OnErr};
ghost use Rattle.std.specs.Prelude.{length, map};
ghost use Rattle.bound_table.specs.Limits.{most_entries};
ghost use Rattle.ffosolve_c.specs.declared.call_refusal.CallRefusal.TheVariants as refusal;
ghost use Rattle.ffosolve_c.specs.CValues.{answer_at, numbered_scoring, scores_at};
ghost use Rattle.ffosolve_c.specs.CValues.{AreAnswers, AreScoresOfAll};
ghost use Rattle.ffosolve_c.specs.Refusals.{first_refusal, first_refused, position_refusal};
ghost use Rattle.ffosolve_c.specs.Refusals.{list_refusal, call_status};
ghost use Rattle.ffosolve_c.specs.Refusals.{AreSolvable, IsOfPosition, IsRefusal};

use crate::answer::{FfosolveAnswer, c_answer};
use crate::call_refusal::CallRefusal;
use crate::position::{FfosolvePosition, task_of};
use crate::scores::{FfosolveMoveScores, scores_at};
use crate::table::{table_of, table_scoring};
use bound_table::{BoundTable, Bounds};
use endgame_search::solve;
use othello_rules::Scoring;
use std::alloc::Global;

// The index of the first position that is refused, and its refusal. None if none is refused.
fn first_refused(positions: &[FfosolvePosition]) -> Option<(usize, CallRefusal)>
    ensures good { IsNone result → AreSolvable positions.now }
    ensures none { IsNone result → first_refusal positions.now ≡ None }
    ensures at { IfSome result (λ first. first_refused positions.now ≡ Some first.0) }
    ensures refused { IfSome result (λ first. first_refusal positions.now ≡ Some first.1) }
    ensures kinds { IfSome result (λ first. IsOfPosition (call_status first.1)) }
{
    for i in 0..positions.len() {
        if let Err(refusal) = task_of(positions[i], Scoring::Winner) {
            return Some((i, refusal));
        }
    }
    None
}

// The answer of a position that is not refused.
fn answer_at(table: &BoundTable, position: FfosolvePosition) -> FfosolveAnswer
    requires { position_refusal position ≡ None }
    ensures { result ≡ answer_at table.now.scoring position }
{
    match task_of(position, table.scoring()) {
        Ok(task) => c_answer(solve(table, task).answer()),
        Err(_) => unreachable!(),
    }
}

// Writes the answer of each position at its index.
fn fill_answers(table: &BoundTable, positions: &[FfosolvePosition], answers: &mut [FfosolveAnswer])
    requires good { AreSolvable positions.now }
    requires lengths { length answers.old ≡ length positions.now }
    ensures { answers.new ≡ map (answer_at table.now.scoring) positions.now }
{
    for i in 0..positions.len() {
        answers[i] = answer_at(table, positions[i]);
    }
}

// Writes the scores of all moves of each position at its index.
fn fill_scores(table: &BoundTable, positions: &[FfosolvePosition], found: &mut [FfosolveMoveScores])
    requires good { AreSolvable positions.now }
    requires lengths { length found.old ≡ length positions.now }
    ensures { found.new ≡ map (scores_at table.now.scoring) positions.now }
{
    for i in 0..positions.len() {
        found[i] = scores_at(table, positions[i]);
    }
}

// The scoring of a request with room for `room` results. `Err` is the first refusal; with
// `SharedSquare` and `TooManyEmpties` the index of the first refused position, from 0, is written to
// `at`; otherwise `at` is as it was.
fn accepted_scoring(
    positions: &[FfosolvePosition],
    scoring: u32,
    entries: usize,
    room: usize,
    at: &mut usize,
) -> Result<Scoring, CallRefusal>
    ensures scoring { IfOk result (λ g. numbered_scoring scoring ≡ Some g) }
    ensures few { IfOk result (λ g. entries ≤ most_entries) }
    ensures lengths { IfOk result (λ g. length positions.now ≡ room) }
    ensures solvable { IfOk result (λ g. AreSolvable positions.now) }
    ensures good { IfOk result (λ g. list_refusal scoring entries positions.now room ≡ None) }
    ensures refused { IfErr result
        (λ r. list_refusal scoring entries positions.now room ≡ Some r) }
    ensures not_memory { IfErr result (λ r. r ≢ refusal.NoMemory) }
    ensures at { IfErr result (λ r.
        IsOfPosition (call_status r) → first_refused positions.now ≡ Some at.new) }
    ensures at_unchanged { IfErr result
        (λ r. (IsOfPosition (call_status r) → ⊥) → at.new ≡ at.old) }
    ensures at_kept { OnOk result (at.new ≡ at.old) }
{
    let scoring = table_scoring(scoring, entries)?;
    if positions.len() != room {
        return Err(CallRefusal::UnequalLengths);
    }
    if let Some((first, refusal)) = first_refused(positions) {
        *at = first;
        return Err(refusal);
    }
    Ok(scoring)
}

/// Writes the answer of each position at its index in `answers`. `Err` leaves `answers` as it was.
/// With `SharedSquare` and `TooManyEmpties` the index of the first refused position, from 0, is
/// written to `at`; otherwise `at` is as it was.
pub fn answer_all(
    alloc: Global,
    positions: &[FfosolvePosition],
    scoring: u32,
    entries: usize,
    answers: &mut [FfosolveAnswer],
    at: &mut usize,
) -> Result<(), CallRefusal>
    ensures good { OnOk result
        (list_refusal scoring entries positions.now (length answers.old) ≡ None) }
    ensures answers { OnOk result (AreAnswers scoring positions.now answers.new) }
    ensures refused { IfErr result
        (IsRefusal (list_refusal scoring entries positions.now (length answers.old))) }
    ensures without_memory { entries ≡ 0 → IfErr result (λ r. r ≢ refusal.NoMemory) }
    ensures unchanged { OnErr result (answers.new ≡ answers.old) }
    ensures at { IfErr result (λ r.
        IsOfPosition (call_status r) → first_refused positions.now ≡ Some at.new) }
    ensures at_unchanged { IfErr result
        (λ r. (IsOfPosition (call_status r) → ⊥) → at.new ≡ at.old) }
    ensures at_kept { OnOk result (at.new ≡ at.old) }
{
    let scoring = accepted_scoring(positions, scoring, entries, answers.len(), at)?;
    let table = table_of(alloc, entries, scoring)?;
    fill_answers(&table, positions, answers);
    Ok(())
}

/// Writes the scores of all moves of each position at its index in `found`. `Err` leaves `found` as
/// it was, and writes to `at` as `answer_all` does.
pub fn score_each(
    alloc: Global,
    positions: &[FfosolvePosition],
    scoring: u32,
    entries: usize,
    found: &mut [FfosolveMoveScores],
    at: &mut usize,
) -> Result<(), CallRefusal>
    ensures good { OnOk result
        (list_refusal scoring entries positions.now (length found.old) ≡ None) }
    ensures scores { OnOk result (AreScoresOfAll scoring positions.now found.new) }
    ensures refused { IfErr result
        (IsRefusal (list_refusal scoring entries positions.now (length found.old))) }
    ensures without_memory { entries ≡ 0 → IfErr result (λ r. r ≢ refusal.NoMemory) }
    ensures unchanged { OnErr result (found.new ≡ found.old) }
    ensures at { IfErr result (λ r.
        IsOfPosition (call_status r) → first_refused positions.now ≡ Some at.new) }
    ensures at_unchanged { IfErr result
        (λ r. (IsOfPosition (call_status r) → ⊥) → at.new ≡ at.old) }
    ensures at_kept { OnOk result (at.new ≡ at.old) }
{
    let scoring = accepted_scoring(positions, scoring, entries, found.len(), at)?;
    let table = table_of(alloc, entries, scoring)?;
    fill_scores(&table, positions, found);
    Ok(())
}
