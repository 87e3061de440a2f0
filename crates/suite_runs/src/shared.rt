//! The values that are made for a run, which its threads share.

ghost use Rattle.std.specs.Prelude.{◌≡◌, ◌≤◌, length, IfOk};
ghost use Rattle.program_settings.specs.Limits.{most_files};

use crate::gate::Gate;
use crate::solver::{Solver, new_table};
use crate::worker::Worker;
use bound_table::BoundTable;
use job_board::{BoardFault, Desk};
use program_settings::Settings;
use solved_book::Claims;
use std::alloc::{AllocError, Global};

/// The values that are made for a run, which its threads share.
#[derive(Drop)]
pub(crate) struct Shared {
    pub(crate) alloc: Global,
    pub(crate) settings: Settings,
    pub(crate) desk: Desk,
    pub(crate) table: BoundTable,
}

impl Shared {
    pub(crate) fn new(
        alloc: Global,
        files: &[Vec<u8>],
        settings: &Settings,
    ) -> Result<Shared, AllocError>
        requires { length files.now ≤ most_files }
        ensures scoring { IfOk result (λ shared. shared.table.scoring ≡ settings.now.scoring) }
        ensures settings { IfOk result (λ shared. shared.settings ≡ settings.now) }
    {
        let table = new_table(alloc, settings)?;
        match Desk::new(alloc, files.len() as u32) {
            Ok(desk) => Ok(Shared {
                alloc,
                settings: *settings,
                desk,
                table,
            }),
            Err(BoardFault::Memory) => Err(AllocError),
            Err(BoardFault::TooManySenders) => unreachable!(),
        }
    }

    /// A worker at the desk, which solves over the table with these claims.
    pub(crate) fn worker<'a, G: Gate>(
        &'a self,
        claims: &'a Claims,
        gate: &'a G,
    ) -> Worker<'a, BoundTable, G>
        ensures { result.solver.table.now ≡ self.now.table }
    {
        Worker {
            desk: &self.desk,
            solver: Solver::new(&self.table, Some(claims)),
            gate,
        }
    }
}
