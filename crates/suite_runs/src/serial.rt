//! The parts of the files, solved on the calling thread, for `run_serial`.

ghost use Rattle.std.specs.Prelude.{◌≡◌, ◌≤◌, length, All, IfOk, None};
ghost use Rattle.endgame_search.specs.Limits.{most_empties};
ghost use Rattle.program_settings.specs.Limits.{most_bytes, most_files};
ghost use Rattle.endgame_search.specs.Task.{TaskView};
ghost use Rattle.suite_runs.specs.Part.{part_view, part_view_of};
ghost use Rattle.suite_reports.specs.ParsedLine.{tasks_in};
ghost use Rattle.obf_text.specs.LineText.{texts_of};
ghost use Rattle.program_settings.specs.InputFault.{first_large};
ghost use Rattle.suite_runs.specs.Runs.{AreFilesOf};

use crate::part::Part;
use crate::solved_files::SolvedFiles;
use crate::solver::{Solver, new_table};
use bound_table::Bounds;
use endgame_search::Solved;
use program_settings::{Criteria, Settings};
use solved_book::Claims;
use std::alloc::{AllocError, Global};
use suite_reports::{NumberedLine, parse_lines, rows_of};

// Solves the tasks of the lines, in the order of the lines.
fn solve_all<T: Bounds>(
    alloc: Global,
    solver: &Solver<'_, T>,
    lines: &[NumberedLine],
) -> Result<Vec<Solved>, AllocError>
    requires { All (λ (task : TaskView). task.scoring ≡ T.scoring solver.now.table.now)
        (tasks_in lines.now) }
    ensures { IfOk result (λ solved. solved.items ≡ tasks_in lines.now) }
{
    let mut solved = Vec::new(alloc);
    for line in lines {
        if let Some(task) = line.task() {
            solved.push(solver.answer(task))?;
        }
    }
    Ok(solved)
}

// Solves a text's positions one after the other, and makes its `Part`: rows and solved positions.
fn solve_text<T: Bounds>(
    alloc: Global,
    text: &[u8],
    criteria: Criteria,
    solver: &Solver<'_, T>,
) -> Result<Part, AllocError>
    requires few_empties { criteria.limit ≤ most_empties }
    requires short { length text.now ≤ most_bytes }
    ensures { IfOk result
        (λ part. part_view_of part ≡ part_view (T.scoring solver.now.table.now) criteria text.now) }
{
    let lines = parse_lines(alloc, criteria, solver.scoring(), text)?;
    let solved = solve_all(alloc, solver, &lines)?;
    let rows = rows_of(alloc, &lines, &solved)?;
    Ok(Part { rows, solved })
}

/// Solves the files on the calling thread, one after the other, over one table of bounds. There are
/// at most `MOST_FILES` files, none of more than `MOST_BYTES` bytes. The only error is out of memory.
pub(crate) fn solve_files_serially(
    alloc: Global,
    files: &[Vec<u8>],
    settings: &Settings,
    claims: Option<&Claims>,
) -> Result<SolvedFiles, AllocError>
    requires few { length files.now ≤ most_files }
    requires small { first_large (texts_of files.now) ≡ None }
    ensures { IfOk result (AreFilesOf settings.now (texts_of files.now)) }
{
    let table = new_table(alloc, settings)?;
    let solver = Solver::new(&table, claims);
    let mut parts = Vec::new(alloc);
    for file in files {
        parts.push(solve_text(alloc, file, settings.criteria(), &solver)?)?;
    }
    Ok(SolvedFiles {
        scoring: settings.scoring(),
        parts,
    })
}
