//! The fields of a line. A field is a piece of the line that lists a move with its score.

ghost use Rattle.std.specs.Prelude.{◌≡◌, ◌<◌, ◌≤◌, IfOk, OnErr, IfSome, length};
ghost use Rattle.obf_text.specs.Fields.{column_of_letter, digit_of, field_of, field_of_text};
ghost use Rattle.obf_text.specs.Fields.{fields_of, move_of, row_of_digit, score_of_text, magnitude_of};
ghost use Rattle.obf_text.specs.Fields.{without_blanks, without_first_blanks, without_last_blanks};
ghost use Rattle.obf_text.specs.Fields.{square_in};

use crate::bytes::{blank_count, is_blank};
use crate::entries::ListedMove;
use crate::pieces::pieces_of;
use othello_rules::{GREATEST_SCORE, Square};
use std::alloc::{AllocError, Global};

// The greatest absolute value of a score.
const GREATEST_SIZE: u8 = GREATEST_SCORE as u8;

// The number of a digit. None if the byte is not a digit.
fn digit_of(byte: u8) -> Option<u8>
    ensures value { result ≡ digit_of byte }
    ensures small { IfSome result (λ d. d ≤ 9) }
{
    match byte {
        b'0'..=b'9' => Some(byte - b'0'),
        _ => None,
    }
}

// The square that two bytes name, the letter in either case. None if they name no square.
fn square_of(first: u8, second: u8) -> Option<ListedMove>
    ensures { result ≡ square_in (column_of_letter first) (row_of_digit second) }
{
    let square = Square::from_name(&[first, second])?;
    Some(ListedMove::At(square))
}

// The move that two bytes name: a pass, the end of the game or a square. None if they name no
// move.
fn move_of(first: u8, second: u8) -> Option<ListedMove>
    ensures { result ≡ move_of first second }
{
    match (first, second) {
        (b'P' | b'p', b'S' | b's') => Some(ListedMove::Pass),
        (b'-', b'-') => Some(ListedMove::Over),
        _ => square_of(first, second),
    }
}

// The number of one or two digits. None for any other text, and for a number above 64.
fn magnitude_of(digits: &[u8]) -> Option<u8>
    ensures value { result ≡ magnitude_of digits.now }
    ensures small { IfSome result (λ n. n ≤ 64) }
{
    match digits {
        [only] => digit_of(*only),
        [first, second] => {
            let tens = digit_of(*first)?;
            let ones = digit_of(*second)?;
            let size = 10 * tens + ones;
            if size <= GREATEST_SIZE {
                Some(size)
            } else {
                None
            }
        }
        _ => None,
    }
}

// The score of a text: a number after `+`, `-` or no sign. None if the text is not a score.
fn score_of_text(text: &[u8]) -> Option<i8>
    ensures { result ≡ score_of_text text.now }
{
    match text {
        [b'+', digits @ ..] => {
            let size = magnitude_of(digits)?;
            Some(size as i8)
        }
        [b'-', digits @ ..] => {
            let size = magnitude_of(digits)?;
            Some(-(size as i8))
        }
        digits => {
            let size = magnitude_of(digits)?;
            Some(size as i8)
        }
    }
}

// The field of a text without blanks at its ends: a move, a colon and a score. None if the text
// is not a field.
fn field_of_text(text: &[u8]) -> Option<(ListedMove, i8)>
    ensures { result ≡ field_of_text text.now }
{
    match text {
        [first, second, b':', score @ ..] => {
            let listed = move_of(*first, *second)?;
            let score = score_of_text(score)?;
            Some((listed, score))
        }
        _ => None,
    }
}

/// A text without its leading blanks, spaces and tabs.
pub fn without_first_blanks(text: &[u8]) -> &[u8]
    ensures { result.now ≡ without_first_blanks text.now }
{
    let start = blank_count(text);
    &text[start..]
}

// A piece without its trailing blanks.
fn without_last_blanks(piece: &[u8]) -> &[u8]
    ensures { result.now ≡ without_last_blanks piece.now }
{
    let mut end = piece.len();
    while end > 0 && is_blank(piece[end - 1]) {
        end -= 1;
    }
    &piece[..end]
}

/// A piece without the blanks, spaces and tabs, at both ends.
pub fn without_blanks(piece: &[u8]) -> &[u8]
    ensures { result.now ≡ without_blanks piece.now }
{
    without_last_blanks(without_first_blanks(piece))
}

/// The move that a piece of a line lists, with its score from -64 to 64. None if the piece is
/// not a field.
pub fn field_of(piece: &[u8]) -> Option<(ListedMove, i8)>
    ensures { result ≡ field_of piece.now }
{
    field_of_text(without_blanks(piece))
}

// The fields among the pieces of the bytes after the side to move, in their order. Memory is taken
// only for fields. `Err` if it is refused.
pub(crate) fn read_fields(alloc: Global, rest: &[u8]) -> Result<Vec<(ListedMove, i8)>, AllocError>
    ensures ok { IfOk result (λ listed. listed.items ≡ fields_of rest.now) }
    ensures err { OnErr result (0 < length (fields_of rest.now)) }
{
    let mut listed = Vec::new(alloc);
    for piece in pieces_of(rest) {
        if let Some(field) = field_of(piece) {
            listed.push(field)?;
        }
    }
    Ok(listed)
}
