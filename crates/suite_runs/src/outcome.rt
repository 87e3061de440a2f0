//! The outcome of a run: the reports of its files, and the book of its positions.

ghost use Rattle.std.specs.Prelude.{ℕ, List, IfOk};
ghost use Rattle.program_settings.specs.Settings.{SettingsView};
ghost use Rattle.suite_runs.specs.Runs.{AreFilesOf, Solves};

use crate::solved_files::SolvedFiles;
use solved_book::Book;
use std::alloc::{AllocError, Global};

/// The reports and the book of a run.
#[derive(Debug, Drop)]
pub struct Outcome {
    /// The bytes of each file's report, in the order of the files.
    pub reports: Vec<Vec<u8>>,
    /// The canonical form of each solved position with its answer, under the scoring of the run.
    pub book: Book,
}

/// Makes the reports and the book of a run from its solved files.
pub(crate) fn outcome_of(alloc: Global, files: &SolvedFiles) -> Result<Outcome, AllocError>
    ensures { IfOk result (λ outcome. (settings : SettingsView) (texts : List (List ℕ))
        → AreFilesOf settings texts files.now → Solves settings texts outcome) }
{
    Ok(Outcome {
        reports: files.reports(alloc)?,
        book: files.book(alloc)?,
    })
}
