//! Writes the line of a position, with its answer or with any listed moves.

ghost use Rattle.std.specs.Prelude.{◌≡◌, ◌<◌, nat_abs, length, map, All, OnOk};
ghost use Rattle.std.specs.Io.KnownBytes.{Appends};
ghost use Rattle.othello_rules.specs.declared.answer.Best.TheVariants.{Moves};
ghost use Rattle.obf_text.specs.Written.{best_fields_text, board_text, cell_byte, field_text};
ghost use Rattle.obf_text.specs.Written.{move_text, score_part, score_text, side_byte};
ghost use Rattle.obf_text.specs.Written.{entry_text, fields_text, line_with_end};

use crate::entries::ListedMove;
use othello_rules::{Answer, Best, Cell, Grid, Side, Square, squares_in};
use std::io;
use std::io::Write;

// The byte that is written for a cell.
fn cell_byte(cell: Cell) -> u8
    ensures { result ≡ cell_byte cell }
{
    match cell {
        Cell::Empty => b'-',
        Cell::Black => b'X',
        Cell::White => b'O',
    }
}

// The byte that is written for the side to move.
fn side_byte(side: Side) -> u8
    ensures { result ≡ side_byte side }
{
    match side {
        Side::Black => b'X',
        Side::White => b'O',
    }
}

// The bytes of a position's 64 squares, in the order A1, B1, .. H8.
fn board_bytes(grid: &Grid) -> [u8; 64]
    requires { length grid.now.cells ≡ 64 }
    ensures { result ≡ map cell_byte grid.now.cells }
{
    let mut bytes = [b'-'; 64];
    for number in 0..64 {
        bytes[number as usize] = cell_byte(grid.cell(Square::at(number)));
    }
    bytes
}

/// A listed move as two bytes: a square's name such as `A1`, `PS` for a pass, `--` for the end of
/// the game.
#[tactic(auto, unfolding(crate::specs::Written::move_text))]
pub fn move_bytes(listed: ListedMove) -> [u8; 2]
    ensures { result ≡ move_text listed }
{
    match listed {
        ListedMove::At(square) => square.name(),
        ListedMove::Pass => *b"PS",
        ListedMove::Over => *b"--",
    }
}

/// A score as three bytes: its sign, which is `+` from 0 up, and two digits.
#[tactic(auto, unfolding(crate::specs::Written::score_text))]
pub fn score_bytes(score: i8) -> [u8; 3]
    requires { nat_abs score < 100 }
    ensures { result ≡ score_text score }
{
    let size = score.unsigned_abs();
    let sign = if score < 0 { b'-' } else { b'+' };
    [sign, b'0' + size / 10, b'0' + size % 10]
}

// Writes the squares, a space, the side to move and a semicolon.
#[tactic(auto, unfolding(crate::specs::Written::board_text))]
fn write_board<W: Write>(writer: &mut W, grid: &Grid) -> io::Result<()>
    ensures { OnOk result
        (Appends (W.contents writer.old) (W.contents writer.new) (board_text grid.now)) }
{
    let mover = side_byte(grid.side());
    writer.write_all(&board_bytes(grid))?;
    writer.write_all(&[b' ', mover, b';'])
}

// Writes a colon, the score and a semicolon.
#[tactic(auto, unfolding(crate::specs::Written::score_part))]
fn write_score<W: Write>(writer: &mut W, score: i8) -> io::Result<()>
    requires { nat_abs score < 100 }
    ensures { OnOk result
        (Appends (W.contents writer.old) (W.contents writer.new) (score_part score)) }
{
    writer.write_all(b":")?;
    writer.write_all(&score_bytes(score))?;
    writer.write_all(b";")
}

// Writes a field: a space, the move, a colon, the score and a semicolon.
#[tactic(auto, unfolding(crate::specs::Written::field_text))]
fn write_field<W: Write>(writer: &mut W, listed: ListedMove, score: i8) -> io::Result<()>
    requires { nat_abs score < 100 }
    ensures { OnOk result
        (Appends (W.contents writer.old) (W.contents writer.new) (field_text (listed, score))) }
{
    writer.write_all(b" ")?;
    writer.write_all(&move_bytes(listed))?;
    write_score(writer, score)
}

// Writes a field with the score for each square of a mask, in the order of the squares.
fn write_moves<W: Write>(writer: &mut W, score: i8, mask: u64) -> io::Result<()>
    requires { nat_abs score < 100 }
    ensures { OnOk result
        (Appends (W.contents writer.old) (W.contents writer.new)
        (best_fields_text score (Moves mask))) }
{
    for square in squares_in(mask).iter() {
        write_field(writer, ListedMove::At(*square), score)?;
    }
    Ok(())
}

// Writes a field with the score for each best move, or one for the pass or the end of the game.
#[tactic(auto, unfolding(crate::specs::Written::best_fields_text, crate::specs::Written::fields_text))]
fn write_best<W: Write>(writer: &mut W, score: i8, best: Best) -> io::Result<()>
    requires { nat_abs score < 100 }
    ensures { OnOk result
        (Appends (W.contents writer.old) (W.contents writer.new) (best_fields_text score best)) }
{
    match best {
        Best::Moves(mask) => write_moves(writer, score, mask),
        Best::Pass => write_field(writer, ListedMove::Pass, score),
        Best::Over => write_field(writer, ListedMove::Over, score),
    }
}

/// Writes the line of a position with its answer, and the line's end.
///
/// The line is 64 bytes of `X`, `O` and `-` in the order A1, B1, .. H8, a space, `X` or `O` for the
/// side to move, `;`, a field for each best move in the order of the squares, and LF. A field is a
/// space, the move's name, `:`, the score as a sign and two digits, and `;`. A pass has one field
/// with the name `PS`. The end of the game has one field with the name `--`.
///
/// Takes no memory. `Err` is the writer's error: a part of the line may have been written.
#[tactic(auto, unfolding(crate::specs::Written::line_text))]
pub fn write_line<W: Write>(writer: &mut W, grid: &Grid, answer: &Answer) -> io::Result<()>
    ensures { OnOk result
        (Appends (W.contents writer.old) (W.contents writer.new)
        (line_with_end grid.now answer.now)) }
{
    write_board(writer, grid)?;
    write_best(writer, answer.score, answer.best)?;
    writer.write_all(b"\n")
}

// Writes the fields, in their order.
fn write_fields<W: Write>(writer: &mut W, fields: &[(ListedMove, i8)]) -> io::Result<()>
    requires { All (λ f. nat_abs f.1 < 100) fields.now }
    ensures { OnOk result
        (Appends (W.contents writer.old) (W.contents writer.new) (fields_text fields.now)) }
{
    for (listed, score) in fields {
        write_field(writer, *listed, *score)?;
    }
    Ok(())
}

/// Writes the line of a position with any fields, each a listed move with its score, in their
/// order. The line's end is not written, so that a comment may follow. Takes no memory. `Err` is
/// the writer's error: a part of the line may have been written.
#[tactic(auto, unfolding(crate::specs::Written::entry_text))]
pub fn write_entry<W: Write>(
    writer: &mut W,
    grid: &Grid,
    fields: &[(ListedMove, i8)],
) -> io::Result<()>
    requires { All (λ f. nat_abs f.1 < 100) fields.now }
    ensures { OnOk result (Appends (W.contents writer.old)
        (W.contents writer.new) (entry_text grid.now fields.now)) }
{
    write_board(writer, grid)?;
    write_fields(writer, fields)
}
