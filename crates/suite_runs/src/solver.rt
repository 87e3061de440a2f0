//! Solves tasks over a table of bounds, with or without the claims of a book.

ghost use Rattle.std.specs.Prelude.{◌≡◌, option_map, IfOk};
ghost use Rattle.suite_runs.specs.Solver.{Advises};

use bound_table::{BoundTable, Bounds, TableFault};
use endgame_search::{Claim, Solved, Task, confirm, solve};
use othello_rules::Scoring;
use program_settings::Settings;
use solved_book::Claims;
use std::alloc::{AllocError, Global};

/// A table of bounds, and the claims of a book if one was read. Tasks are solved by it.
#[derive(Drop)]
pub(crate) struct Solver<'a, T: Bounds> {
    table: &'a T,
    claims: Option<&'a Claims>,
}

impl<'a, T: Bounds> Solver<'a, T> {
    /// Solves over this table, with these claims.
    pub(crate) fn new(table: &'a T, claims: Option<&'a Claims>) -> Solver<'a, T>
        ensures { result.table.now ≡ table.now }
    {
        Solver { table, claims }
    }

    /// The scoring of the table.
    pub(crate) fn scoring(&self) -> Scoring
        ensures { result ≡ T.scoring self.now.table.now }
    {
        self.table.scoring()
    }

    /// Whether threads that solve one task are faster together than one of them alone: they learn
    /// from one another by the table.
    pub(crate) fn is_worth_sharing(&self) -> bool {
        self.table.is_worth_sharing()
    }

    // The claim of the task's position. Claims under another scoring are not looked up.
    fn find_claim(&self, task: Task) -> Option<Claim>
        ensures { Advises (option_map (λ c. c.now) self.now.claims) task result }
    {
        let claims = self.claims?;
        if claims.scoring() != task.scoring() {
            return None;
        }
        claims.find(&task.pos())
    }

    /// The task's position with its exact answer. `confirm` returns it if the position has a
    /// claim, otherwise `solve`.
    pub(crate) fn answer(&self, task: Task) -> Solved
        requires { task.scoring ≡ T.scoring self.now.table.now }
        ensures { result ≡ task }
    {
        match self.find_claim(task) {
            Some(claim) => confirm(self.table, task, claim),
            None => solve(self.table, task),
        }
    }
}

/// A new table of bounds, with the number of entries and the scoring of the settings. The only
/// error is out of memory.
pub(crate) fn new_table(alloc: Global, settings: &Settings) -> Result<BoundTable, AllocError>
    ensures { IfOk result (λ table. table.scoring ≡ settings.now.scoring) }
{
    match BoundTable::new(alloc, settings.table() as usize, settings.scoring()) {
        Ok(table) => Ok(table),
        Err(TableFault::Memory) => Err(AllocError),
        Err(TableFault::TooMany) => unreachable!(),
    }
}
