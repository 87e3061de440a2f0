//! The text that is printed for the lines of a list.

ghost use Rattle.std.specs.Prelude.{◌≡◌, ◌≢◌, ◌≤◌, ◌<◌, ◌++◌, ◌∷◌, [], All, IfOk, IsOk, OnOk};
ghost use Rattle.std.specs.Prelude.{nat_abs, not, true, false};
ghost use Rattle.std.specs.Io.KnownBytes.{Appends};
ghost use Rattle.endgame_search.specs.Limits.{most_empties};
ghost use Rattle.obf_text.specs.Faults.{line_fault_text, too_many_text};
ghost use Rattle.obf_text.specs.Obf.{Holds, entry_of, item_of};
ghost use Rattle.obf_text.specs.Pieces.{line_pieces};
ghost use Rattle.obf_text.specs.declared.line_fault.LineFault.TheVariants.{Memory};
ghost use Rattle.obf_text.specs.LineText.{lines_of};
ghost use Rattle.scored_lines.specs.Lines.{are_right, comment_text, is_right, kept_text};
ghost use Rattle.scored_lines.specs.Lines.{out_text, quoted_text, refused_text, scored_text};
ghost use Rattle.scored_lines.specs.Lines.{scores_text};
ghost use Rattle.scored_lines.specs.Remarks.{has_remarks, line_remarks};

use crate::remarks::write_line_remarks;
use bound_table::Bounds;
use endgame_search::{Task, TooMany};
use move_scores::score_moves;
use obf_text::{
    Item, Line, LineFault, ListedMove, ManyEmpties, comment_of, read_line, split_lines, write_entry,
};
use othello_bits::Pos;
use program_settings::Criteria;
use std::alloc::{AllocError, Global};
use std::io;
use std::io::Write;

// Writes a line as it is, and its end.
fn write_kept<W: Write>(writer: &mut W, line: &[u8]) -> io::Result<()>
    ensures { OnOk result
        (Appends (W.contents writer.old) (W.contents writer.new) (kept_text line.now)) }
{
    writer.write_all(line)?;
    writer.write_all(b"\n")
}

// Writes a colon, a space and a line as it is.
#[tactic(auto, unfolding(crate::specs::Lines::quoted_text))]
fn write_quoted<W: Write>(writer: &mut W, line: &[u8]) -> io::Result<()>
    ensures { OnOk result
        (Appends (W.contents writer.old) (W.contents writer.new) (quoted_text line.now)) }
{
    writer.write_all(b": ")?;
    write_kept(writer, line)
}

// Writes the comment for a line that is refused for a fault.
fn write_faulty<W: Write>(writer: &mut W, fault: LineFault, line: &[u8]) -> io::Result<()>
    ensures { OnOk result (Appends (W.contents writer.old)
        (W.contents writer.new) (refused_text (line_fault_text fault) line.now)) }
{
    writer.write_all(b"% refused: ")?;
    write!(writer, "{fault}")?;
    write_quoted(writer, line)
}

// Writes the comment for a line that is refused because its position has `found` empty squares,
// more than the limit.
fn write_many<W: Write>(writer: &mut W, found: u8, limit: u8, line: &[u8]) -> io::Result<()>
    ensures { OnOk result (Appends (W.contents writer.old)
        (W.contents writer.new) (refused_text (too_many_text found limit) line.now)) }
{
    writer.write_all(b"% refused: ")?;
    write!(writer, "{}", ManyEmpties { found, limit })?;
    write_quoted(writer, line)
}

// Writes a space and a line's comment, or nothing if the line has none, and the line's end.
fn write_comment<W: Write>(writer: &mut W, comment: &[u8]) -> io::Result<()>
    ensures { OnOk result (Appends (W.contents writer.old)
        (W.contents writer.new) (comment_text comment.now ++ 10 ∷ [])) }
{
    if !comment.is_empty() {
        writer.write_all(b" ")?;
    }
    write_kept(writer, comment)
}

// Writes the line of a position: the position with its scores, the remarks on its line, and the
// line's comment. Returns whether there is no remark.
#[tactic(auto, unfolding(crate::specs::Lines::scored_text))]
fn write_entry_line<W: Write>(
    writer: &mut W,
    complete: bool,
    entry: &Line,
    scores: &[(ListedMove, i8)],
    line: &[u8],
) -> io::Result<bool>
    requires { All (λ f. nat_abs f.1 < 100) scores.now }
    ensures written { OnOk result (Appends (W.contents writer.old)
        (W.contents writer.new) (scored_text complete (entry_of entry.now) scores.now line.now)) }
    ensures right { IfOk result
        (λ right. right ≡ not (has_remarks
        (line_remarks complete scores.now (entry_of entry.now).listed (line_pieces line.now)))) }
{
    write_entry(writer, &entry.grid, scores)?;
    let found = write_line_remarks(writer, complete, scores, &entry.listed, line)?;
    write_comment(writer, comment_of(line))?;
    Ok(!found)
}

// Writes the text of a line that holds a position. Returns whether the line is right: its position
// has no more empty squares than the limit, and no remark is made.
fn write_scored<T: Bounds, W: Write>(
    table: &T,
    writer: &mut W,
    criteria: Criteria,
    line: &[u8],
    entry: &Line,
) -> io::Result<bool>
    requires { criteria.limit ≤ most_empties }
    ensures written { OnOk result (Appends (W.contents writer.old) (W.contents writer.new)
        (out_text (T.scoring table.now) criteria line.now (Holds (entry_of entry.now)))) }
    ensures right { IfOk result (λ right. right
        ≡ is_right (T.scoring table.now) criteria line.now (Holds (entry_of entry.now))) }
{
    match Task::new(Pos::of_grid(&entry.grid), criteria.limit, table.scoring()) {
        Ok(task) => {
            let scored = score_moves(table, task);
            write_entry_line(writer, criteria.complete, entry, scored.fields(), line)
        }
        Err(TooMany(found)) => {
            write_many(writer, found, criteria.limit, line)?;
            Ok(false)
        }
    }
}

// Writes a skipped line as it is. Returns true: such a line is right.
fn write_skipped<W: Write>(writer: &mut W, line: &[u8]) -> io::Result<bool>
    ensures written { OnOk result
        (Appends (W.contents writer.old) (W.contents writer.new) (kept_text line.now)) }
    ensures right { IfOk result (λ right. right ≡ true) }
{
    write_kept(writer, line)?;
    Ok(true)
}

// Writes the comment for a line that is refused for a fault. Returns false: such a line is not
// right. `Err` if the fault is `Memory`, which is not a fault of the line.
fn write_refused<W: Write>(writer: &mut W, fault: LineFault, line: &[u8]) -> io::Result<bool>
    ensures written { OnOk result (Appends (W.contents writer.old)
        (W.contents writer.new) (refused_text (line_fault_text fault) line.now)) }
    ensures right { IfOk result (λ right. right ≡ false) }
    ensures not_memory { IsOk result → fault ≢ Memory }
{
    match fault {
        LineFault::Memory => Err(io::Error::from(io::ErrorKind::OutOfMemory)),
        _ => {
            write_faulty(writer, fault, line)?;
            Ok(false)
        }
    }
}

// Writes the text of a line. Returns whether the line is right: it is not refused, and no remark is
// made on it.
fn write_item<T: Bounds, W: Write>(
    table: &T,
    alloc: Global,
    writer: &mut W,
    criteria: Criteria,
    line: &[u8],
) -> io::Result<bool>
    requires { criteria.limit ≤ most_empties }
    ensures written { OnOk result (Appends (W.contents writer.old) (W.contents writer.new)
        (out_text (T.scoring table.now) criteria line.now (item_of line.now))) }
    ensures right { IfOk result
        (λ right. right ≡ is_right (T.scoring table.now) criteria line.now (item_of line.now)) }
{
    match read_line(alloc, line) {
        Ok(Item::Skip) => write_skipped(writer, line),
        Ok(Item::Entry(entry)) => write_scored(table, writer, criteria, line, &entry),
        Err(fault) => write_refused(writer, fault, line),
    }
}

// Writes what is printed for each line of a text. Returns whether all lines are right.
fn write_items<T: Bounds, W: Write>(
    table: &T,
    alloc: Global,
    writer: &mut W,
    criteria: Criteria,
    text: &[u8],
) -> io::Result<bool>
    requires { criteria.limit ≤ most_empties }
    ensures written { OnOk result (Appends (W.contents writer.old) (W.contents writer.new)
        (scores_text (T.scoring table.now) criteria text.now)) }
    ensures right { IfOk result
        (λ right. right ≡ are_right (T.scoring table.now) criteria (lines_of text.now)) }
{
    let mut right = true;
    for line in split_lines(text) {
        let line_right = write_item(table, alloc, writer, criteria, line)?;
        right &= line_right;
    }
    Ok(right)
}

/// What is printed for lines, and whether all of them are right: none is refused, and no remark is
/// made.
#[derive(Drop)]
pub struct LinesText {
    pub bytes: Vec<u8>,
    pub right: bool,
}

/// What is printed for the lines of a text. A line that is skipped is printed as it is. A line that
/// is refused is printed as a comment with the reason and the line. A position is printed with
/// every move's score, with the remarks on its line, and with the line's comment.
pub fn lines_text<T: Bounds>(
    table: &T,
    alloc: Global,
    criteria: Criteria,
    text: &[u8],
) -> Result<LinesText, AllocError>
    requires { criteria.limit ≤ most_empties }
    ensures bytes { IfOk result (λ found. found.bytes.items
        ≡ scores_text (T.scoring table.now) criteria text.now) }
    ensures right { IfOk result (λ found. found.right
        ≡ are_right (T.scoring table.now) criteria (lines_of text.now)) }
{
    let mut bytes = Vec::new(alloc);
    match write_items(table, alloc, &mut bytes, criteria, text) {
        Ok(right) => Ok(LinesText { bytes, right }),
        Err(_) => Err(AllocError),
    }
}
