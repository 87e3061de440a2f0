//! The pieces of a line, and its comment. The pieces are the bytes after the side to move, up to
//! the first `%`, cut at each `;`.

ghost use Rattle.std.specs.Prelude.{◌≡◌, ◌==◌, ◌∷◌, Some, drop, option_map};
ghost use Rattle.std.specs.Iterator.{YieldsFirstRef, item_count};
ghost use Rattle.std.specs.List.{before_first, position};
ghost use Rattle.obf_text.specs.Fields.{pieces_left, pieces_of};
ghost use Rattle.obf_text.specs.Pieces.{behind_side, comment_of, line_pieces};

use crate::bytes::blank_count;
use std::marker::Model;

// The index of the first `%`. It is a function of its own so that a contract states what is found.
fn first_percent(rest: &[u8]) -> Option<usize>
    ensures { result ≡ position (λ b. b == 37) rest.now }
{
    rest.iter().position(|b| *b == b'%')
}

// The bytes before the first `%`: all bytes if no `%` is among them.
fn before_comment(rest: &[u8]) -> &[u8]
    ensures { result.now ≡ before_first (λ b. b == 37) rest.now }
{
    match first_percent(rest) {
        Some(end) => &rest[..end],
        None => rest,
    }
}

/// The comment of a line: its bytes from the first `%` on. It is empty if the line has no `%`.
pub fn comment_of(line: &[u8]) -> &[u8]
    ensures { result.now ≡ comment_of line.now }
{
    match first_percent(line) {
        Some(start) => &line[start..],
        None => &line[line.len()..],
    }
}

/// An iterator over the pieces of a line. Contracts see the list of the pieces that are left.
#[derive(Clone, Debug, Drop)]
pub struct Pieces<'a> {
    left: Option<&'a [u8]>,
}

impl<'a> Model for Pieces<'a> {
    ghost use Rattle.std.specs.Prelude.{ℕ, List, option_map};
    ghost use Rattle.obf_text.specs.Fields.{pieces_left};

    ghost Value = { List (List ℕ) };

    ghost view = { λ p. pieces_left (option_map (λ t. t.now) p.left) };
}

// The index of the first `;`. It is a function of its own so that a contract states what is found.
fn first_semicolon(text: &[u8]) -> Option<usize>
    ensures { result ≡ position (λ b. b == 59) text.now }
{
    text.iter().position(|b| *b == b';')
}

// The first piece, and the text after the semicolon that ends it. None if the text ends it.
fn first_piece(text: &[u8]) -> (&[u8], Option<&[u8]>)
    ensures { pieces_left (Some text.now)
        ≡ result.0.now ∷ pieces_left (option_map (λ t. t.now) result.1) }
{
    match first_semicolon(text) {
        Some(end) => (&text[..end], Some(&text[end + 1..])),
        None => (text, None),
    }
}

impl<'a> Iterator for Pieces<'a> {
    type Item = &'a [u8];

    ghost next_gives = { YieldsFirstRef (λ pieces. pieces) };

    ghost remaining = { item_count (λ pieces. pieces) };

    fn next(&mut self) -> Option<&'a [u8]> {
        let text = self.left?;
        let (piece, left) = first_piece(text);
        self.left = left;
        Some(piece)
    }
}

// The pieces of the bytes after the side to move.
pub(crate) fn pieces_of(rest: &[u8]) -> Pieces<'_>
    ensures { result ≡ pieces_of rest.now }
{
    Pieces {
        left: Some(before_comment(rest)),
    }
}

// The bytes after the first `count` bytes: none if there are no more.
fn behind(bytes: &[u8], count: usize) -> &[u8]
    ensures { result.now ≡ drop count bytes.now }
{
    &bytes[count.min(bytes.len())..]
}

// The bytes after blanks and the side to move.
fn behind_side(rest: &[u8]) -> &[u8]
    ensures { result.now ≡ behind_side rest.now }
{
    behind(rest, blank_count(rest) + 1)
}

/// The pieces of a line that holds a position, in their order: the bytes after the side to move,
/// up to the first `%`, cut at each `;`. A piece is given whether or not it lists a move, with
/// the blanks at its ends.
#[tactic(auto, unfolding(crate::specs::Pieces::line_pieces))]
pub fn line_pieces(line: &[u8]) -> Pieces<'_>
    ensures { result ≡ line_pieces line.now }
{
    pieces_of(behind_side(behind(line, blank_count(line) + 64)))
}
