//! The threads of a run: a client for each file, and the workers.

ghost use Rattle.std.specs.Prelude.{◌≡◌, ◌≤◌, length, None};
ghost use Rattle.program_settings.specs.Limits.{most_bytes, most_files};
ghost use Rattle.program_settings.specs.Settings.{criteria_of};
ghost use Rattle.suite_runs.specs.Part.{GivesPart, GivesParts};
ghost use Rattle.obf_text.specs.LineText.{texts_of};
ghost use Rattle.program_settings.specs.InputFault.{first_large};
ghost use Rattle.suite_runs.specs.Runs.{Answers, AreFilesOf};

use crate::client::client_part_by_criteria;
use crate::gate::Gate;
use crate::joined::{Joined, join_all};
use crate::part::Part;
use crate::run_fault::RunFault;
use crate::shared::Shared;
use crate::solved_files::SolvedFiles;
use crate::started_client::{PartPromise, StartedClient};
use bound_table::Bounds;
use program_settings::{Settings, check_files};
use solved_book::Claims;
use started_threads::{Making, Started};
use std::alloc::Global;
use std::sync::Wait;
use std::thread;
use std::thread::{Scope, Threads};

// Everything that the threads of a run share. A closure captures its fields one by one: the checker
// stops at a captured `&Crew`, and a closure that captures an `Option<&Claims>` promises its caller
// nothing.
#[derive(Drop)]
struct Crew<'a, R, G> {
    rt: &'a R,
    shared: &'a Shared,
    claims: &'a Claims,
    gate: &'a G,
}

// Starts a client on a thread of its own. If no thread can be started, the calling thread does
// the part of the client.
fn start<'a, E, R: Threads + Wait + Sync, G: Gate>(
    scope: &Scope<'a, E>,
    crew: &Crew<'a, R, G>,
    sender: u32,
    text: &'a [u8],
) -> StartedClient<'a>
    requires { length text.now ≤ most_bytes }
    ensures scoring { result.scoring ≡ crew.now.shared.now.table.scoring }
    ensures criteria { result.criteria ≡ criteria_of crew.now.shared.now.settings }
    ensures text { result.text.now ≡ text.now }
{
    let &Crew {
        rt,
        shared,
        claims,
        gate,
    } = crew;
    let promise = PartPromise {
        scoring: shared.table.scoring(),
        criteria: shared.settings.criteria(),
        text,
    };
    let spawned = scope.spawn_with(
        promise,
        move || -> Result<Part, RunFault>
            requires { length text.now ≤ most_bytes }
            ensures { GivesPart shared.entry.now.table.scoring
                (criteria_of shared.entry.now.settings) text.entry.now result }
        {
            // A second call, since a closure knows only the types of what it captures.
            let criteria = shared.settings.criteria();
            let worker = shared.worker(claims, gate);
            client_part_by_criteria(rt, shared.alloc, text, sender, criteria, &worker)
        },
    );
    let making = match spawned {
        Ok(handle) => Making::Pending(handle),
        Err(refused) => Making::Ready((refused.value)()),
    };
    Started { promise, making }
}

// Starts the workers of the settings. A worker whose thread can't be started is left out.
fn start_workers<'a, E, R: Threads + Wait + Sync, G: Gate>(
    scope: &Scope<'a, E>,
    crew: &Crew<'a, R, G>,
) {
    let &Crew {
        rt,
        shared,
        claims,
        gate,
    } = crew;
    for _ in 0..shared.settings.workers() {
        let _ = scope.spawn(move || {
            shared.worker(claims, gate).work(rt);
        });
    }
}

// Starts the workers and a client for each file, in the order of the files, and joins the clients. All
// lists are made before the first thread is started, so that nothing can fail between the starts and
// the joins. The scope's closure only calls it: of what it captures, it knows the types alone.
fn solve_in_scope<'a, E, R: Threads + Wait + Sync, G: Gate>(
    scope: &Scope<'a, E>,
    crew: &Crew<'a, R, G>,
    files: &'a [Vec<u8>],
) -> Result<Vec<Part>, RunFault>
    requires few { length files.now ≤ most_files }
    requires small { first_large (texts_of files.now) ≡ None }
    ensures { GivesParts crew.now.shared.now.table.scoring
        (criteria_of crew.now.shared.now.settings) (texts_of files.now) result }
{
    let mut clients = Vec::with_capacity(crew.shared.alloc, files.len())?;
    let parts = Vec::with_capacity(crew.shared.alloc, files.len())?;
    let mut joined = Joined { parts, fault: None };
    start_workers(scope, crew);
    let mut sender: u32 = 0;
    for file in files {
        clients.push_reserved(start(scope, crew, sender, file));
        sender += 1;
    }
    join_all(crew.rt, clients, &mut joined);
    joined.into_parts()
}

/// Solves the positions of files on threads: a client for each file and the workers of the
/// settings, at one desk and over one table of bounds. A worker whose thread can't be started is
/// left out. The calling thread does the part of a client whose thread can't be started. The gate
/// is called once the jobs of a file are submitted, and before and after each job. The call returns
/// when all threads have ended, and may wait for them.
///
/// Refused files are `TooManyFiles` or `FileTooLarge`, before a thread is started or the gate is
/// called. If a part ran out of memory, the error is `Memory`; if none did, but the desk refused a
/// step, it is `Mixed`.
pub fn solve_files<R: Threads + Wait + Sync, G: Gate>(
    rt: &R,
    alloc: Global,
    files: &[Vec<u8>],
    settings: &Settings,
    claims: Option<&Claims>,
    gate: &G,
) -> Result<SolvedFiles, RunFault>
    ensures { Answers (AreFilesOf settings.now (texts_of files.now)) (texts_of files.now) result }
{
    check_files(files)?;
    let shared = Shared::new(alloc, files, settings)?;
    // An empty list stands for None: `Crew` says why.
    let none = Claims::new(alloc, settings.scoring());
    let claims = claims.unwrap_or(&none);
    let shared = &shared;
    let parts = thread::scope(
        thread::scope_env(),
        rt,
        |scope| -> Result<Vec<Part>, RunFault>
            requires { (length files.now ≤ most_files) × (first_large (texts_of files.now) ≡ None) }
            ensures { GivesParts shared.entry.now.table.scoring
                (criteria_of shared.entry.now.settings) (texts_of files.entry.now) result }
        {
            let crew = Crew {
                rt,
                shared,
                claims,
                gate,
            };
            solve_in_scope(scope, &crew, files)
        },
    )?;
    Ok(SolvedFiles {
        scoring: settings.scoring(),
        parts,
    })
}
