//! Reads one line.

ghost use Rattle.std.specs.Prelude.{◌≡◌, ◌+◌, ◌<◌, ◌≤◌, ◌^◌, ◌++◌, ℕ, List, Some, IfErr, IfSome, length, map};
ghost use Rattle.std.specs.List.{position_or_len};
ghost use Rattle.obf_text.specs.Bytes.{cell_of, is_no_cell};
ghost use Rattle.obf_text.specs.Obf.{Faulty, IsAtByte, IsResultFor, Meaning, Says, board_item, gap_item};
ghost use Rattle.obf_text.specs.Obf.{item_of, place_of};
ghost use Rattle.obf_text.specs.declared.line_fault.LineFault.{LineFault};

use crate::bytes::{blank_count, cell_count, cell_of, side_of};
use crate::entries::{Item, Line};
use crate::fields::read_fields;
use crate::line_fault::LineFault;
use othello_rules::{Cell, Grid};
use std::alloc::Global;

// The cells that 64 bytes stand for.
fn board_of(bytes: &[u8]) -> [Cell; 64]
    requires { length bytes.now ≡ 64 }
    ensures { result ≡ map cell_of bytes.now }
{
    let mut cells = [Cell::Empty; 64];
    for i in 0..64 {
        cells[i] = cell_of(bytes[i]);
    }
    cells
}

// Reads the side to move and the fields. `rest` is the bytes after the cells, which end after
// `place` bytes of the line.
fn read_side(alloc: Global, place: usize, cells: [Cell; 64], rest: &[u8]) -> Result<Item, LineFault>
    requires { place + length rest.now < 2 ^ 63 }
    ensures { IsResultFor result (gap_item place cells rest.now) }
{
    let gap = blank_count(rest);
    let column = place + gap + 1;
    match &rest[gap..] {
        [] => Err(LineFault::BadSide(column)),
        [byte, fields @ ..] => {
            let Some(side) = side_of(*byte) else {
                return Err(LineFault::BadSide(column));
            };
            let grid = Grid::new(cells, side);
            let listed = read_fields(alloc, fields)?;
            Ok(Item::Entry(Line { grid, listed }))
        }
    }
}

// Reads the cells, the side to move and the fields. `rest` begins with the first cell, which comes
// after `start` blanks.
fn read_board(alloc: Global, start: usize, rest: &[u8]) -> Result<Item, LineFault>
    requires { start + length rest.now < 2 ^ 63 }
    ensures { IsResultFor result (board_item start (position_or_len is_no_cell rest.now) rest.now) }
{
    let count = cell_count(rest);
    if count < 64 {
        if count == rest.len() {
            return Err(LineFault::Short(count));
        }
        return Err(LineFault::BadCell(start + (count + 1)));
    }
    let (board, rest) = rest.split_at(64);
    read_side(alloc, start + 64, board_of(board), rest)
}

/// Reads the bytes of one line, without the line's end.
///
/// A line is skipped if it is blank, or if its first byte after blanks is `%`. Any other line
/// is blanks, 64 squares in the order A1, B1, .. H8, blanks, the side to move, and pieces. Blanks
/// are spaces and tabs. A square is a letter of a black disc (`X x * B b`) or of a white disc
/// (`O o W w`), or an empty square (`-` or `.`). The side to move is a letter of its discs. The
/// pieces are the bytes after it up to the first `%`, cut at each `;`. A piece such as `H1:+62`,
/// `ps:-4` or `--:0` lists a move with its score. Any other piece is skipped.
///
/// `Err` is the first fault from the left, with its column if it has one, or `Memory` if
/// memory was refused. Memory is taken only for listed moves.
pub fn read_line(alloc: Global, line: &[u8]) -> Result<Item, LineFault>
    // The result is what the line says by the grammar.
    ensures says { (meaning : Meaning) → Says line.now meaning → IsResultFor result meaning }
    ensures exact { IsResultFor result (item_of line.now) }
    // The number in a fault is at most the length of the line, and 1 more if the line ends
    // before its side.
    ensures place { IfErr result (λ fault. place_of fault ≤ length line.now + 1) }
{
    let start = blank_count(line);
    let rest = &line[start..];
    match rest {
        [] | [b'%', ..] => Ok(Item::Skip),
        _ => read_board(alloc, start, rest),
    }
}

/// The fault of a line by its first bytes, if each line that begins with them has it: a byte that
/// is not a square, or another byte in place of the side. None if they have no such fault, or
/// if memory was refused.
pub fn fault_of_front(alloc: Global, front: &[u8]) -> Option<LineFault>
    ensures stays { IfSome result (λ fault. (more : List ℕ)
        → item_of (front.now ++ more) ≡ Faulty fault) }
    ensures found { (fault : LineFault) → item_of front.now ≡ Faulty fault
        → IsAtByte front.now fault → result ≡ Some fault }
{
    let Err(fault) = read_line(alloc, front) else {
        return None;
    };
    match fault {
        LineFault::BadCell(_) => Some(fault),
        LineFault::BadSide(column) => {
            if column <= front.len() {
                Some(fault)
            } else {
                None
            }
        }
        LineFault::Short(_) | LineFault::Memory => None,
    }
}
