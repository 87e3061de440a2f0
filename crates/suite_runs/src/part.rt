//! The part of one file in a run.

use endgame_search::Solved;
use suite_reports::ReportRow;

/// The part of one file in a run.
#[derive(Debug, Drop)]
pub struct Part {
    /// A row for each line that is not skipped, in the order of the lines.
    pub rows: Vec<ReportRow>,
    /// The solved positions with their answers, in the order of their lines.
    pub solved: Vec<Solved>,
}
