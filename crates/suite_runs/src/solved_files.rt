//! The files of a run after they were solved: their reports and their book are made from them.

ghost use Rattle.std.specs.Prelude.{◌≡◌, ◌⊎◌, ◌↔◌, ◌≤◌, length, map, All, Contains, IfOk, OnOk};
ghost use Rattle.program_settings.specs.Limits.{most_files};
ghost use Rattle.othello_bits.specs.Pos.{PosView};
ghost use Rattle.endgame_search.specs.Task.{TaskView};
ghost use Rattle.suite_runs.specs.Outcome.{IsBookOf, canonicals, report_of_view, reports_of_views, tasks_of_views};
ghost use Rattle.suite_runs.specs.Part.{AreScored, part_view_of};
ghost use Rattle.obf_text.specs.LineText.{texts_of};

use crate::part::Part;
use endgame_search::Solved;
use othello_rules::Scoring;
use solved_book::Book;
use std::alloc::{AllocError, Global};
use suite_reports::write_report;

/// The files of a run after they were solved, of which there are at most `MOST_FILES`.
#[derive(Debug, Drop)]
pub struct SolvedFiles {
    /// The scoring of the run.
    pub scoring: Scoring,
    /// The part of each file, in the order of the files.
    pub parts: Vec<Part>,
    ghost few: { length parts.items ≤ most_files },
    ghost scored: { All (AreScored scoring) (map part_view_of parts.items) },
}

// The report of the part of one file. `file` is the number of the file, counted from 0.
fn report_of(alloc: Global, file: u32, part: &Part) -> Result<Vec<u8>, AllocError>
    ensures { IfOk result (λ made. made.items ≡ report_of_view (file, part_view_of part.now)) }
{
    let mut report = Vec::new(alloc);
    match write_report(&mut report, file, &part.rows) {
        Ok(()) => Ok(report),
        Err(_) => Err(AllocError),
    }
}

// Adds each of these positions to the book.
fn add_all(book: &mut Book, solved: &[Solved]) -> Result<(), AllocError>
    requires { All (λ (t : TaskView). t.scoring ≡ book.old.scoring) solved.now }
    ensures scoring { OnOk result (book.new.scoring ≡ book.old.scoring) }
    ensures holds { OnOk result ((p : PosView) → Contains book.new.positions p
        ↔ (Contains book.old.positions p ⊎ Contains (canonicals solved.now) p)) }
{
    for one in solved {
        book.add(one)?;
    }
    Ok(())
}

impl SolvedFiles {
    /// Makes the bytes of each file's report, in the order of the files. The only error is out of
    /// memory.
    pub fn reports(&self, alloc: Global) -> Result<Vec<Vec<u8>>, AllocError>
        ensures { IfOk result (λ made. texts_of made.items
            ≡ reports_of_views 0 (map part_view_of self.now.parts.items)) }
    {
        let mut reports = Vec::new(alloc);
        let mut file: u32 = 0;
        for part in &self.parts {
            reports.push(report_of(alloc, file, part)?)?;
            file += 1;
        }
        Ok(reports)
    }

    /// Makes the book of all solved positions: the canonical form of each with its answer. The only
    /// error is out of memory.
    pub fn book(&self, alloc: Global) -> Result<Book, AllocError>
        ensures { IfOk result (IsBookOf self.now.scoring
            (tasks_of_views (map part_view_of self.now.parts.items))) }
    {
        let mut book = Book::new(alloc, self.scoring);
        for part in &self.parts {
            add_all(&mut book, &part.solved)?;
        }
        Ok(book)
    }
}
