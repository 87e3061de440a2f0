//! The meaning of single bytes of a line: blanks, cells and sides.

ghost use Rattle.std.specs.Prelude.{◌≡◌, ◌≤◌, ◌+◌, ◌<◌, ◌*◌, option_map, length, Option};
ghost use Rattle.std.specs.List.{position, position_or_len};
ghost use Rattle.obf_text.specs.Bytes.{is_blank, is_black, is_white, is_cell, is_content};
ghost use Rattle.obf_text.specs.Bytes.{is_no_cell, cell_of, side_of};

use othello_rules::{Cell, Side};

// Whether a byte is a blank: a space or a tab.
pub(crate) fn is_blank(byte: u8) -> bool
    ensures { result ≡ is_blank byte }
{
    byte == b' ' || byte == b'\t'
}

// Whether a byte is a letter of a black disc: `X`, `x`, `*`, `B` or `b`.
fn is_black(byte: u8) -> bool
    ensures { result ≡ is_black byte }
{
    matches!(byte, b'X' | b'x' | b'*' | b'B' | b'b')
}

// Whether a byte is a letter of a white disc: `O`, `o`, `W` or `w`.
fn is_white(byte: u8) -> bool
    ensures { result ≡ is_white byte }
{
    matches!(byte, b'O' | b'o' | b'W' | b'w')
}

// Whether a byte is a cell: a disc's letter, or `-` or `.` for an empty square.
fn is_cell(byte: u8) -> bool
    ensures { result ≡ is_cell byte }
{
    is_black(byte) || is_white(byte) || byte == b'-' || byte == b'.'
}

// The cell of a byte. A byte that is not a disc's letter is an empty square.
pub(crate) fn cell_of(byte: u8) -> Cell
    ensures { result ≡ cell_of byte }
{
    if is_black(byte) {
        Cell::Black
    } else if is_white(byte) {
        Cell::White
    } else {
        Cell::Empty
    }
}

// The side of a disc's letter. None for any other byte.
pub(crate) fn side_of(byte: u8) -> Option<Side>
    ensures { result ≡ side_of byte }
{
    if is_black(byte) {
        Some(Side::Black)
    } else if is_white(byte) {
        Some(Side::White)
    } else {
        None
    }
}

// The index of the first byte that is not a blank. It is a function of its own so that a contract
// states what is found.
fn first_content(bytes: &[u8]) -> Option<usize>
    ensures { result ≡ position is_content bytes.now }
{
    bytes.iter().position(|b| !is_blank(*b))
}

// The number of blanks before the first byte that is not a blank.
#[tactic(auto, using(crate::proofs::LineLemmas::place_steps))]
pub(crate) fn blank_count(bytes: &[u8]) -> usize
    ensures count { result ≡ position_or_len is_content bytes.now }
    ensures within { result ≤ length bytes.now }
{
    first_content(bytes).unwrap_or(bytes.len())
}

// The index of the first byte that is not a cell. It is a function of its own so that a contract
// states what is found.
fn first_no_cell(bytes: &[u8]) -> Option<usize>
    ensures { result ≡ position is_no_cell bytes.now }
{
    bytes.iter().position(|b| !is_cell(*b))
}

// The number of cells before the first byte that is not a cell.
#[tactic(auto, using(crate::proofs::LineLemmas::place_steps))]
pub(crate) fn cell_count(bytes: &[u8]) -> usize
    ensures count { result ≡ position_or_len is_no_cell bytes.now }
    ensures within { result ≤ length bytes.now }
{
    first_no_cell(bytes).unwrap_or(bytes.len())
}
