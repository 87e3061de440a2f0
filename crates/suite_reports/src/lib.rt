//! What a run over the files of a suite reads from a text, and what it reports: the tasks of the
//! lines, the rows of their answers, and the report of a file.
//!
//! ```rust
//! use program_settings::Settings;
//! use suite_reports::{parse_lines, rows_of, write_report};
//!
//! let settings = Settings::default();
//! let lines = parse_lines(alloc, settings.criteria(), settings.scoring(), text)?;
//! let rows = rows_of(alloc, &lines, &solved)?;
//! write_report(&mut report, 0, &rows)?;
//! ```
//!
//! The crate `suite_runs` solves the tasks.
#![tactic(auto)]

mod check;
pub mod laws;
mod numbered_line;
mod parsed_line;
mod report_row;
mod report_writer;

pub use check::{Check, check_of, complete_check_of};
pub use numbered_line::{NumberedLine, parse_lines, rows_of};
pub use report_row::{Refusal, ReportRow, RowResult};
pub use report_writer::write_report;
