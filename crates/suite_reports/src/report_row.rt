//! The rows of a report.

ghost use Rattle.std.specs.Prelude.{Some};
ghost use Rattle.suite_reports.specs.ReportText.{refusal_text};

use crate::check::Check;
use obf_text::{LineFault, ManyEmpties};
use othello_rules::Answer;
use std::fmt;

/// Why a line was not solved. A report prints the text of a refusal as its reason.
#[derive(Clone, Copy, PartialEq, Eq, Debug)]
pub enum Refusal {
    /// The line ends after this number of squares, fewer than 64.
    Short(u32),
    /// The byte at this column, counted from 1 in bytes, is not a square.
    BadCell(u32),
    /// The side to move is missing at this column, counted from 1 in bytes.
    BadSide(u32),
    /// The number of empty squares, and the limit, which is below it.
    Empties(u8, u8),
}

impl fmt::Display for Refusal {
    ghost output = { λ refusal. Some (refusal_text refusal) };

    #[tactic(auto, unfolding(crate::specs::ReportText::refusal_text))]
    fn fmt<W: fmt::Write>(&self, f: &mut fmt::Formatter<W>) -> fmt::Result {
        match self {
            Refusal::Short(found) => LineFault::Short(*found as usize).fmt(f),
            Refusal::BadCell(column) => LineFault::BadCell(*column as usize).fmt(f),
            Refusal::BadSide(column) => LineFault::BadSide(*column as usize).fmt(f),
            Refusal::Empties(found, limit) => {
                let found = *found;
                let limit = *limit;
                ManyEmpties { found, limit }.fmt(f)
            }
        }
    }
}

/// The result of a line that is not skipped.
#[derive(Clone, Copy, PartialEq, Eq, Debug)]
pub enum RowResult {
    /// The exact answer of the position, and how the listed scores compare with it.
    Solved(Answer, Check),
    /// Why the line was not solved.
    Refused(Refusal),
}

/// The row of one line that is not skipped.
#[derive(Clone, Copy, PartialEq, Eq, Debug)]
pub struct ReportRow {
    /// The line's number in its file, counted from 1 over all lines.
    pub line: u32,
    pub result: RowResult,
}
