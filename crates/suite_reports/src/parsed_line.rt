//! A line of a list after it was read: a task with the listed moves, or a refusal.

ghost use Rattle.std.specs.Prelude.{◌≡◌, ◌≤◌, length, option_map, IfOk, Some, slice_get};
ghost use Rattle.std.specs.List.{cons_option};
ghost use Rattle.std.specs.Option.{option_and_then};
ghost use Rattle.std.specs.Slice.Iter.{iter_rest};
ghost use Rattle.endgame_search.specs.Limits.{most_empties};
ghost use Rattle.program_settings.specs.Limits.{most_bytes};
ghost use Rattle.endgame_search.specs.Task.{TaskView};
ghost use Rattle.obf_text.specs.Obf.{Holds, entry_of, item_of};
ghost use Rattle.suite_reports.specs.ParsedLine.{parsed_result, task_in};
ghost use Rattle.suite_reports.specs.Rows.{entry_result, line_result, task_of};

use crate::check::check_by;
use crate::report_row::{Refusal, RowResult};
use endgame_search::{Solved, Task, TooMany};
use obf_text::{Item, Line, LineFault, ListedMove, read_line};
use othello_bits::Pos;
use othello_rules::Scoring;
use program_settings::Criteria;
use std::alloc::{AllocError, Global};
use std::slice::Iter;

/// A line that is not skipped, after it was read.
#[derive(Drop)]
pub(crate) enum ParsedLine {
    /// A position to solve.
    Position {
        task: Task,
        /// The moves and scores that the line lists.
        listed: Vec<(ListedMove, i8)>,
        /// Whether the line has to list every best move if it lists any.
        complete: bool,
    },
    /// Why the line is refused.
    Refused(Refusal),
}

impl ParsedLine {
    // The line of a position: a task, or a refusal if it has more empty squares than the limit.
    fn of_entry(criteria: Criteria, scoring: Scoring, entry: Line) -> ParsedLine
        requires { criteria.limit ≤ most_empties }
        ensures result { parsed_result result ≡ entry_result scoring criteria (entry_of entry) }
        ensures task { task_in result ≡ task_of scoring criteria.limit (Holds (entry_of entry)) }
    {
        let limit = criteria.limit;
        match Task::new(Pos::of_grid(&entry.grid), limit, scoring) {
            Ok(task) => ParsedLine::Position {
                task,
                listed: entry.listed,
                complete: criteria.complete,
            },
            Err(TooMany(found)) => ParsedLine::Refused(Refusal::Empties(found, limit)),
        }
    }

    /// The task of the line; None if the line is refused.
    pub(crate) fn task(&self) -> Option<Task>
        ensures { result ≡ task_in self.now }
    {
        match self {
            ParsedLine::Position { task, .. } => Some(*task),
            ParsedLine::Refused(_) => None,
        }
    }

    /// The result of the line, for its row. A line with a task takes the next one of the answers,
    /// which is the answer of that task.
    pub(crate) fn result(&self, answers: &mut Iter<'_, Solved>) -> RowResult
        requires { (task : TaskView) → task_in self.now ≡ Some task
            → slice_get (iter_rest answers.old) 0 ≡ Some task }
        ensures result { result ≡ parsed_result self.now }
        ensures left { iter_rest answers.old
            ≡ cons_option (task_in self.now) (iter_rest answers.new) }
    {
        match self {
            ParsedLine::Position {
                listed,
                complete,
                ..
            } => {
                let Some(solved) = answers.next() else {
                    unreachable!()
                };
                let answer = solved.answer();
                RowResult::Solved(answer, check_by(*complete, listed, &answer))
            }
            ParsedLine::Refused(refusal) => RowResult::Refused(*refusal),
        }
    }
}

/// Reads a line; None if it is skipped. The only error is out of memory.
pub(crate) fn parse_line(
    alloc: Global,
    criteria: Criteria,
    scoring: Scoring,
    line: &[u8],
) -> Result<Option<ParsedLine>, AllocError>
    requires few_empties { criteria.limit ≤ most_empties }
    requires short { length line.now ≤ most_bytes }
    ensures result { IfOk result (λ found. option_map parsed_result found
        ≡ line_result scoring criteria (item_of line.now)) }
    ensures task { IfOk result (λ found. option_and_then task_in found
        ≡ task_of scoring criteria.limit (item_of line.now)) }
{
    let refusal = match read_line(alloc, line) {
        Ok(Item::Skip) => return Ok(None),
        Ok(Item::Entry(entry)) => return Ok(Some(ParsedLine::of_entry(criteria, scoring, entry))),
        Err(LineFault::Short(found)) => Refusal::Short(found as u32),
        Err(LineFault::BadCell(column)) => Refusal::BadCell(column as u32),
        Err(LineFault::BadSide(column)) => Refusal::BadSide(column as u32),
        Err(LineFault::Memory) => return Err(AllocError),
    };
    Ok(Some(ParsedLine::Refused(refusal)))
}
