//! The lines of a text that are not skipped: each is read once, and becomes a row.

ghost use Rattle.std.specs.Prelude.{◌≡◌, ◌≤◌, length, map, IfOk};
ghost use Rattle.endgame_search.specs.Limits.{most_empties};
ghost use Rattle.program_settings.specs.Limits.{most_bytes};
ghost use Rattle.suite_reports.specs.ParsedLine.{row_in, task_in, tasks_in};
ghost use Rattle.suite_reports.specs.Rows.{rows, tasks};

use crate::parsed_line::{ParsedLine, parse_line};
use crate::report_row::ReportRow;
use endgame_search::{Solved, Task};
use obf_text::split_lines;
use othello_rules::Scoring;
use program_settings::Criteria;
use std::alloc::{AllocError, Global};

/// A line that is not skipped, after it was read: its number in its file, counted from 1 over all
/// lines, with its task or its refusal.
#[derive(Drop)]
pub struct NumberedLine {
    number: u32,
    parsed: ParsedLine,
}

impl NumberedLine {
    /// The task of the line; None if the line is refused.
    pub fn task(&self) -> Option<Task>
        ensures { result ≡ task_in self.now.parsed }
    {
        self.parsed.task()
    }
}

/// Reads the lines of a text, in their order. Skipped lines are left out. A position with more
/// empty squares than the limit is refused. The limit is at most 60, and the text has at most
/// `MOST_BYTES` bytes. The only error is out of memory.
pub fn parse_lines(
    alloc: Global,
    criteria: Criteria,
    scoring: Scoring,
    text: &[u8],
) -> Result<Vec<NumberedLine>, AllocError>
    requires few_empties { criteria.limit ≤ most_empties }
    requires short { length text.now ≤ most_bytes }
    ensures rows { IfOk result (λ found. map row_in found.items ≡ rows scoring criteria text.now) }
    ensures tasks { IfOk result
        (λ found. tasks_in found.items ≡ tasks scoring criteria.limit text.now) }
{
    let mut lines = Vec::new(alloc);
    let mut number: u32 = 1;
    for line in split_lines(text) {
        if let Some(parsed) = parse_line(alloc, criteria, scoring, line)? {
            lines.push(NumberedLine { number, parsed })?;
        }
        number += 1;
    }
    Ok(lines)
}

/// The rows of lines that were read. `solved` has one answer for each task, in the order of the
/// lines. The only error is out of memory.
pub fn rows_of(
    alloc: Global,
    lines: &[NumberedLine],
    solved: &[Solved],
) -> Result<Vec<ReportRow>, AllocError>
    requires { solved.now ≡ tasks_in lines.now }
    ensures { IfOk result (λ rows. rows.items ≡ map row_in lines.now) }
{
    let mut rows = Vec::new(alloc);
    let mut answers = solved.iter();
    for numbered in lines {
        rows.push(ReportRow {
            line: numbered.number,
            result: numbered.parsed.result(&mut answers),
        })?;
    }
    Ok(rows)
}
