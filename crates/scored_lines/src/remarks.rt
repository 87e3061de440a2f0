//! Remarks on a line: on moves that are listed with a wrong score, on bytes that list no move, and
//! on best moves that are not listed.

ghost use Rattle.std.specs.Prelude.{◌≡◌, ◌<◌, ◌||◌, false, All, IfOk, IfSome, OnOk, is_some};
ghost use Rattle.std.specs.Prelude.{nat_abs};
ghost use Rattle.std.specs.Io.KnownBytes.{Appends};
ghost use Rattle.obf_text.specs.Pieces.{line_pieces};
ghost use Rattle.scored_lines.specs.Remarks.{field_remark, gap_text, has_remarks, left_out_remark};
ghost use Rattle.scored_lines.specs.Remarks.{left_out_remarks, left_out_text, line_remarks, one_text};
ghost use Rattle.scored_lines.specs.Remarks.{remark_of, remarks};
ghost use Rattle.scored_lines.specs.Remarks.{remarks_text, unread_remark, unread_text, verdict_text};
ghost use Rattle.scored_lines.specs.Remarks.{wrong_text};

use crate::checks::{Wrong, asks_for_best, is_left_out, wrong_in};
use obf_text::{ListedMove, field_of, line_pieces, move_bytes, score_bytes, without_blanks};
use std::io;
use std::io::Write;

// Writes the score of a move, or `not a move`.
#[tactic(auto, unfolding(crate::specs::Remarks::verdict_text))]
fn write_verdict<W: Write>(writer: &mut W, score: Option<i8>) -> io::Result<()>
    requires { IfSome score (λ z. nat_abs z < 100) }
    ensures { OnOk result
        (Appends (W.contents writer.old) (W.contents writer.new) (verdict_text score)) }
{
    match score {
        None => writer.write_all(b"not a move"),
        Some(score) => writer.write_all(&score_bytes(score)),
    }
}

// Writes a listed move with its listed score, and the move's score in the position.
#[tactic(auto, unfolding(crate::specs::Remarks::wrong_text))]
fn write_wrong<W: Write>(writer: &mut W, wrong: &Wrong) -> io::Result<()>
    requires claimed { nat_abs wrong.now.claimed < 100 }
    requires score { IfSome wrong.now.score (λ z. nat_abs z < 100) }
    ensures { OnOk result
        (Appends (W.contents writer.old) (W.contents writer.new) (wrong_text wrong.now)) }
{
    writer.write_all(&move_bytes(wrong.listed))?;
    writer.write_all(b":")?;
    writer.write_all(&score_bytes(wrong.claimed))?;
    writer.write_all(b" is ")?;
    write_verdict(writer, wrong.score)
}

// Writes `not read: ` and the bytes.
#[tactic(auto, unfolding(crate::specs::Remarks::unread_text))]
fn write_unread<W: Write>(writer: &mut W, bytes: &[u8]) -> io::Result<()>
    ensures { OnOk result
        (Appends (W.contents writer.old) (W.contents writer.new) (unread_text bytes.now)) }
{
    writer.write_all(b"not read: ")?;
    writer.write_all(bytes)
}

// Writes the bytes in front of a remark: a comma if `found` says that another remark comes
// before it, otherwise the `%` that begins a comment.
#[tactic(auto, unfolding(crate::specs::Remarks::gap_text))]
fn write_gap<W: Write>(writer: &mut W, found: bool) -> io::Result<()>
    ensures { OnOk result
        (Appends (W.contents writer.old) (W.contents writer.new) (gap_text found)) }
{
    if found {
        writer.write_all(b", ")
    } else {
        writer.write_all(b" % ")
    }
}

// Writes the remark on a listed move, if its score is wrong. `found` says whether there was a
// remark before it. Returns whether there is one by now.
fn write_field_remark<W: Write>(
    writer: &mut W,
    scores: &[(ListedMove, i8)],
    field: &(ListedMove, i8),
    found: bool,
) -> io::Result<bool>
    requires scores { All (λ f. nat_abs f.1 < 100) scores.now }
    requires claimed { nat_abs field.now.1 < 100 }
    ensures written { OnOk result (Appends (W.contents writer.old) (W.contents writer.new)
        (one_text found (field_remark scores.now field.now))) }
    ensures found { IfOk result
        (λ any. any ≡ (found || is_some (field_remark scores.now field.now))) }
{
    let Some(wrong) = wrong_in(scores, field) else {
        return Ok(found);
    };
    write_gap(writer, found)?;
    write_wrong(writer, &wrong)?;
    Ok(true)
}

// Writes the remark on bytes that are not a field, if there are any. `found` says whether there was
// a remark before it. Returns whether there is one by now.
fn write_unread_remark<W: Write>(writer: &mut W, bytes: &[u8], found: bool) -> io::Result<bool>
    ensures written { OnOk result (Appends (W.contents writer.old) (W.contents writer.new)
        (one_text found (unread_remark bytes.now))) }
    ensures found { IfOk result (λ any. any ≡ (found || is_some (unread_remark bytes.now))) }
{
    if bytes.is_empty() {
        return Ok(found);
    }
    write_gap(writer, found)?;
    write_unread(writer, bytes)?;
    Ok(true)
}

// Writes the remark on a piece, if there is one. `found` says whether there was a remark before it.
// Returns whether there is one by now.
fn write_remark<W: Write>(
    writer: &mut W,
    scores: &[(ListedMove, i8)],
    piece: &[u8],
    found: bool,
) -> io::Result<bool>
    requires { All (λ f. nat_abs f.1 < 100) scores.now }
    ensures written { OnOk result (Appends (W.contents writer.old) (W.contents writer.new)
        (one_text found (remark_of scores.now piece.now))) }
    ensures found { IfOk result
        (λ any. any ≡ (found || is_some (remark_of scores.now piece.now))) }
{
    match field_of(piece) {
        Some(field) => write_field_remark(writer, scores, &field, found),
        None => write_unread_remark(writer, without_blanks(piece), found),
    }
}

// Writes the remarks on the pieces of a line. Returns whether there is a remark.
fn write_remarks<W: Write>(
    writer: &mut W,
    scores: &[(ListedMove, i8)],
    line: &[u8],
) -> io::Result<bool>
    requires { All (λ f. nat_abs f.1 < 100) scores.now }
    ensures written { OnOk result (Appends (W.contents writer.old) (W.contents writer.new)
        (remarks_text false (remarks scores.now (line_pieces line.now)))) }
    ensures found { IfOk result
        (λ any. any ≡ has_remarks (remarks scores.now (line_pieces line.now))) }
{
    let mut found = false;
    for piece in line_pieces(line) {
        found = write_remark(writer, scores, piece, found)?;
    }
    Ok(found)
}

// Writes `best move `, the move and ` is not listed`.
#[tactic(auto, unfolding(crate::specs::Remarks::left_out_text))]
fn write_left_out<W: Write>(writer: &mut W, listed: ListedMove) -> io::Result<()>
    ensures { OnOk result
        (Appends (W.contents writer.old) (W.contents writer.new) (left_out_text listed)) }
{
    writer.write_all(b"best move ")?;
    writer.write_all(&move_bytes(listed))?;
    writer.write_all(b" is not listed")
}

// Writes the remark on a move of the position, if it is a best one and not listed. `found` says
// whether there was a remark before it. Returns whether there is one by now.
fn write_left_out_remark<W: Write>(
    writer: &mut W,
    scores: &[(ListedMove, i8)],
    listed: &[(ListedMove, i8)],
    field: &(ListedMove, i8),
    found: bool,
) -> io::Result<bool>
    ensures written { OnOk result (Appends (W.contents writer.old) (W.contents writer.new)
        (one_text found (left_out_remark scores.now listed.now field.now))) }
    ensures found { IfOk result
        (λ any. any ≡ (found || is_some (left_out_remark scores.now listed.now field.now))) }
{
    if !is_left_out(scores, listed, field) {
        return Ok(found);
    }
    write_gap(writer, found)?;
    write_left_out(writer, field.0)?;
    Ok(true)
}

// Writes the remarks on best moves that are not listed, if they are asked for and the line lists
// moves. `found` says whether there was a remark before them. Returns whether there is one by now.
fn write_left_out_remarks<W: Write>(
    writer: &mut W,
    complete: bool,
    scores: &[(ListedMove, i8)],
    listed: &[(ListedMove, i8)],
    found: bool,
) -> io::Result<bool>
    ensures written { OnOk result (Appends (W.contents writer.old) (W.contents writer.new)
        (remarks_text found (left_out_remarks complete scores.now listed.now))) }
    ensures found { IfOk result
        (λ any. any ≡ (found || has_remarks (left_out_remarks complete scores.now listed.now))) }
{
    if !asks_for_best(complete, listed) {
        return Ok(found);
    }
    let mut any = found;
    for field in scores {
        any = write_left_out_remark(writer, scores, listed, field, any)?;
    }
    Ok(any)
}

// Writes the remarks on a line: those on its pieces, and then those on best moves that it leaves
// out. Returns whether there is a remark.
pub(crate) fn write_line_remarks<W: Write>(
    writer: &mut W,
    complete: bool,
    scores: &[(ListedMove, i8)],
    listed: &[(ListedMove, i8)],
    line: &[u8],
) -> io::Result<bool>
    requires { All (λ f. nat_abs f.1 < 100) scores.now }
    ensures written { OnOk result (Appends (W.contents writer.old) (W.contents writer.new)
        (remarks_text false (line_remarks complete scores.now listed.now (line_pieces line.now)))) }
    ensures found { IfOk result (λ any. any
        ≡ has_remarks (line_remarks complete scores.now listed.now (line_pieces line.now))) }
{
    let found = write_remarks(writer, scores, line)?;
    write_left_out_remarks(writer, complete, scores, listed, found)
}
