//! Writes the report of a file.

ghost use Rattle.std.specs.Prelude.{◌≡◌, ◌<◌, ◌≤◌, length, OnOk};
ghost use Rattle.std.specs.Io.KnownBytes.{Appends};
ghost use Rattle.othello_rules.specs.Masks.{squares_of};
ghost use Rattle.suite_reports.specs.ReportText.{best_text, comma_name, head_text, last_text, score_and_best_text};
ghost use Rattle.suite_reports.specs.ReportText.{names_text, report_text, result_text};
ghost use Rattle.suite_reports.specs.ReportText.{row_text, solved_count};

use crate::check::Check;
use crate::report_row::{ReportRow, RowResult};
use obf_text::score_bytes;
use othello_rules::{Answer, Best, Square, squares_in};
use std::io;
use std::io::Write;

// Each text of `specs/ReportText` has a writer of its own, so that a contract says what it writes.

// Writes a comma and the name of a square.
#[tactic(auto, unfolding(crate::specs::ReportText::comma_name))]
fn write_next_name<W: Write>(writer: &mut W, square: Square) -> io::Result<()>
    ensures { OnOk result
        (Appends (W.contents writer.old) (W.contents writer.new) (comma_name square)) }
{
    writer.write_all(b",")?;
    writer.write_all(&square.name())
}

fn write_names<W: Write>(writer: &mut W, squares: &[Square]) -> io::Result<()>
    ensures { OnOk result
        (Appends (W.contents writer.old) (W.contents writer.new) (names_text squares.now)) }
{
    let [first, rest @ ..] = squares else {
        return Ok(());
    };
    writer.write_all(&first.name())?;
    for square in rest {
        write_next_name(writer, *square)?;
    }
    Ok(())
}

#[tactic(auto, unfolding(crate::specs::ReportText::best_text))]
fn write_best<W: Write>(writer: &mut W, best: Best) -> io::Result<()>
    ensures { OnOk result
        (Appends (W.contents writer.old) (W.contents writer.new) (best_text best)) }
{
    match best {
        Best::Moves(mask) => write_names(writer, squares_in(mask).as_slice()),
        Best::Pass => writer.write_all(b"PS"),
        Best::Over => writer.write_all(b"--"),
    }
}

#[tactic(auto, unfolding(crate::specs::ReportText::score_and_best_text))]
fn write_answer<W: Write>(writer: &mut W, answer: &Answer) -> io::Result<()>
    ensures { OnOk result
        (Appends (W.contents writer.old) (W.contents writer.new) (score_and_best_text answer.now)) }
{
    writer.write_all(&score_bytes(answer.score))?;
    writer.write_all(b" ")?;
    write_best(writer, answer.best)
}

#[tactic(auto, unfolding(crate::specs::ReportText::result_text))]
fn write_solved<W: Write>(writer: &mut W, answer: &Answer, check: Check) -> io::Result<()>
    ensures { OnOk result (Appends (W.contents writer.old)
        (W.contents writer.new) (result_text (RowResult.Solved answer.now check))) }
{
    write_answer(writer, answer)?;
    write!(writer, " {check}")
}

#[tactic(auto, unfolding(crate::specs::ReportText::result_text))]
fn write_result<W: Write>(writer: &mut W, row_result: &RowResult) -> io::Result<()>
    ensures { OnOk result
        (Appends (W.contents writer.old) (W.contents writer.new) (result_text row_result.now)) }
{
    match row_result {
        RowResult::Solved(answer, check) => write_solved(writer, answer, *check),
        RowResult::Refused(refusal) => write!(writer, "refused: {refusal}"),
    }
}

#[tactic(auto, unfolding(crate::specs::ReportText::row_text))]
fn write_row<W: Write>(writer: &mut W, row: &ReportRow) -> io::Result<()>
    ensures { OnOk result
        (Appends (W.contents writer.old) (W.contents writer.new) (row_text row.now)) }
{
    let number = row.line;
    write!(writer, "{number} ")?;
    write_result(writer, &row.result)?;
    writer.write_all(b"\n")
}

// The number of solved rows.
#[tactic(auto, unfolding(crate::specs::ReportText::solved_count))]
fn solved_count(rows: &[ReportRow]) -> usize
    ensures count { result ≡ solved_count rows.now }
    ensures within { result ≤ length rows.now }
{
    rows.iter()
        .filter(|row| matches!(row.result, RowResult::Solved(_, _)))
        .count()
}

#[tactic(auto, unfolding(crate::specs::ReportText::head_text))]
fn write_head<W: Write>(writer: &mut W, file: u32) -> io::Result<()>
    ensures { OnOk result
        (Appends (W.contents writer.old) (W.contents writer.new) (head_text file)) }
{
    let number = u64::from(file) + 1;
    write!(writer, "[{number}]\n")
}

#[tactic(auto, unfolding(crate::specs::ReportText::last_text))]
fn write_last<W: Write>(writer: &mut W, rows: &[ReportRow]) -> io::Result<()>
    ensures { OnOk result
        (Appends (W.contents writer.old) (W.contents writer.new) (last_text rows.now)) }
{
    let solved = solved_count(rows);
    let refused = rows.len() - solved;
    write!(writer, "solved {solved} refused {refused}\n")
}

/// Writes the report of a file: the line `[N]`, where N is `file` plus 1, a line for each row, and
/// a line with the number of solved rows and the number of refused rows. Each line ends with LF.
/// `file` is the number of the file, counted from 0. The error is that of the writer, and nothing
/// is said about the bytes that were written before it. The call takes no memory of its own.
pub fn write_report<W: Write>(writer: &mut W, file: u32, rows: &[ReportRow]) -> io::Result<()>
    ensures { OnOk result
        (Appends (W.contents writer.old) (W.contents writer.new) (report_text file rows.now)) }
{
    write_head(writer, file)?;
    for row in rows {
        write_row(writer, row)?;
    }
    write_last(writer, rows)
}
