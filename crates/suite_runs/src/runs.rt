//! Runs over files, on the calling thread or on several threads.

ghost use Rattle.std.specs.Prelude.{◌≡◌, ◌≢◌, ◌<◌, ◌≤◌, ◌↔◌, ℕ, length, Some, Err, IfOk, IsErrOf};
ghost use Rattle.program_settings.specs.InputFault.{first_large};
ghost use Rattle.program_settings.specs.Limits.{most_files};
ghost use Rattle.program_settings.specs.Settings.{criteria_of};
ghost use Rattle.suite_runs.specs.Outcome.{IsBookOf};
ghost use Rattle.suite_reports.specs.Reports.{reports};
ghost use Rattle.obf_text.specs.LineText.{texts_of};
ghost use Rattle.suite_runs.specs.Runs.{Answers, Solves, all_tasks};
ghost use Rattle.suite_runs.specs.declared.run_fault.RunFault.TheVariants.{Mixed, TooManyFiles, FileTooLarge};

use crate::gate::Gate;
use crate::outcome::{Outcome, outcome_of};
use crate::run_fault::RunFault;
use crate::serial::solve_files_serially;
use crate::threads::solve_files;
use program_settings::{Settings, check_files};
use solved_book::Claims;
use std::alloc::Global;
use std::sync::Wait;
use std::thread::Threads;

// Does the work of `run_serial`. At each return the checker asks for these two clauses; in
// `run_serial` it would ask for all five.
fn run_files(
    alloc: Global,
    files: &[Vec<u8>],
    settings: &Settings,
    claims: Option<&Claims>,
) -> Result<Outcome, RunFault>
    ensures answers { Answers (Solves settings.now (texts_of files.now)) (texts_of files.now)
        result }
    ensures unmixed { result ≢ Err Mixed }
{
    check_files(files)?;
    let solved = solve_files_serially(alloc, files, settings, claims)?;
    Ok(outcome_of(alloc, &solved)?)
}

/// Solves the positions of files on the calling thread, over one table of bounds. No program calls
/// it: it is for callers without threads, and tests compare `run` with it. The workers of the
/// settings are not used. A position with a claim under the scoring of the settings is confirmed,
/// and any other position is solved.
///
/// The reports are those of the files, in the order of the files. The book holds the canonical form
/// of each solved position, and nothing else. Reports and book depend neither on the size of the
/// table nor on the claims.
///
/// Errors: `TooManyFiles` for more than `MOST_FILES` files, otherwise `FileTooLarge` for the first
/// file of more than `MOST_BYTES` bytes, both before anything is solved; `Memory` if memory was refused.
/// `Mixed` never comes.
pub fn run_serial(
    alloc: Global,
    files: &[Vec<u8>],
    settings: &Settings,
    claims: Option<&Claims>,
) -> Result<Outcome, RunFault>
    ensures too_many { IsErrOf result TooManyFiles ↔ most_files < length files.now }
    ensures too_large { (sender : ℕ) → IsErrOf result (FileTooLarge sender) ↔
        ((length files.now ≤ most_files) × (first_large (texts_of files.now) ≡ Some sender)) }
    ensures unmixed { result ≢ Err Mixed }
    ensures reports { IfOk result (λ outcome. texts_of outcome.reports.items
        ≡ reports settings.now.scoring (criteria_of settings.now) (texts_of files.now)) }
    ensures book { IfOk result (λ outcome. IsBookOf settings.now.scoring (all_tasks
        settings.now.scoring settings.now.max_empties (texts_of files.now)) outcome.book) }
{
    run_files(alloc, files, settings, claims)
}

// Does the work of `run`, with one clause, for the same reason.
fn run_threads<R: Threads + Wait + Sync, G: Gate>(
    rt: &R,
    alloc: Global,
    files: &[Vec<u8>],
    settings: &Settings,
    claims: Option<&Claims>,
    gate: &G,
) -> Result<Outcome, RunFault>
    ensures { Answers (Solves settings.now (texts_of files.now)) (texts_of files.now) result }
{
    let solved = solve_files(rt, alloc, files, settings, claims, gate)?;
    Ok(outcome_of(alloc, &solved)?)
}

/// Solves the positions of files on threads, as `solve_files` does, and makes their reports and
/// their book. No program calls it: it is for callers that want all of them at once, and for tests.
///
/// Reports and book are those of `run_serial`, for every number of workers and every gate. So are
/// `TooManyFiles` and `FileTooLarge`, which come before a thread is started or the gate is called.
/// If a part ran out of memory, the error is `Memory`; if none did, but the desk refused a
/// step, it is `Mixed`.
pub fn run<R: Threads + Wait + Sync, G: Gate>(
    rt: &R,
    alloc: Global,
    files: &[Vec<u8>],
    settings: &Settings,
    claims: Option<&Claims>,
    gate: &G,
) -> Result<Outcome, RunFault>
    ensures too_many { IsErrOf result TooManyFiles ↔ most_files < length files.now }
    ensures too_large { (sender : ℕ) → IsErrOf result (FileTooLarge sender) ↔
        ((length files.now ≤ most_files) × (first_large (texts_of files.now) ≡ Some sender)) }
    ensures reports { IfOk result (λ outcome. texts_of outcome.reports.items
        ≡ reports settings.now.scoring (criteria_of settings.now) (texts_of files.now)) }
    ensures book { IfOk result (λ outcome. IsBookOf settings.now.scoring (all_tasks
        settings.now.scoring settings.now.max_empties (texts_of files.now)) outcome.book) }
{
    run_threads(rt, alloc, files, settings, claims, gate)
}
