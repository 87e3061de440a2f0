//! A client of a run that was started, and the promise of its thread.

ghost use Rattle.suite_runs.specs.Part.{GivesPart};

use crate::part::Part;
use crate::run_fault::RunFault;
use othello_rules::Scoring;
use program_settings::Criteria;
use started_threads::Started;
use std::thread::Promise;

/// The promise of a client's thread: it returns the part of `text`, under `scoring` and by
/// `criteria`, or `Memory` or `Mixed`.
#[derive(Clone, Copy)]
pub struct PartPromise<'a> {
    pub scoring: Scoring,
    pub criteria: Criteria,
    pub text: &'a [u8],
}

impl<'a> Promise<Result<Part, RunFault>> for PartPromise<'a> {
    ghost kept_by = { λ promise result.
        GivesPart promise.scoring promise.criteria promise.text.now result };
}

/// A client that was started: joined, it returns what its thread promises.
pub type StartedClient<'a> = Started<Result<Part, RunFault>, PartPromise<'a>>;
