//! A text cut into lines.

ghost use Rattle.std.specs.Prelude.{◌≡◌, ◌≢◌, ◌⊎◌, ◌==◌, ◌∷◌, ◌<◌, ◌≤◌, ◌+◌, ◌-◌, All, length, slice_index, take};
ghost use Rattle.std.specs.Iterator.{YieldsFirstRef, item_count};
ghost use Rattle.std.specs.List.{position};
ghost use Rattle.std.specs.Str.Lines.{strip_carriage_return};
ghost use Rattle.obf_text.specs.LineText.{lines_of, room_of};

use std::marker::Model;

/// An iterator over the lines of a text, each without its end. Contracts see the list of the lines
/// that are left.
#[derive(Clone, Debug, Drop)]
pub struct Lines<'a> {
    text: &'a [u8],
}

impl<'a> Model for Lines<'a> {
    ghost use Rattle.std.specs.Prelude.{ℕ, List};
    ghost use Rattle.obf_text.specs.LineText.{lines_of};

    ghost Value = { List (List ℕ) };

    ghost view = { λ l. lines_of l.text.now };
}

/// Cuts a text into its lines. A line ends at an LF, or at the end of the text. An LF at the end of
/// the text begins no further line. A line is given without its LF, and without one CR at its end.
pub fn split_lines(text: &[u8]) -> Lines<'_>
    ensures lines { result ≡ lines_of text.now }
    // The lines, each with one byte for its end, are at most one byte longer than the text.
    ensures room { room_of (lines_of text.now) ≤ length text.now + 1 }
{
    Lines { text }
}

/// The number of bytes of a text's first line, with the LF that ends it. It is 0 if the text is
/// empty.
pub fn line_len(text: &[u8]) -> usize
    ensures within { result ≤ length text.now }
    ensures some { 0 < length text.now → 0 < result }
    ensures before { All (λ b. b ≢ 10) (take (result - 1) text.now) }
    ensures ended { (result ≡ length text.now)
        ⊎ ((0 < result) × (slice_index text.now (result - 1) ≡ 10)) }
{
    for (at, byte) in text.iter().enumerate() {
        if *byte == b'\n' {
            return at + 1;
        }
    }
    text.len()
}

// The line without one CR at its end.
fn without_return(line: &[u8]) -> &[u8]
    ensures { result.now ≡ strip_carriage_return line.now }
{
    match line {
        [front @ .., b'\r'] => front,
        _ => line,
    }
}

// The index of the first LF. It is a function of its own so that a contract states what is found.
fn first_line_feed(text: &[u8]) -> Option<usize>
    ensures { result ≡ position (λ b. b == 10) text.now }
{
    text.iter().position(|b| *b == b'\n')
}

// The first line of a text that is not empty, without its end, and the text after that end.
#[tactic(auto, using(crate::proofs::LineLemmas::line_steps))]
fn first_line(text: &[u8]) -> (&[u8], &[u8])
    requires { 0 < length text.now }
    ensures { lines_of text.now ≡ result.0.now ∷ lines_of result.1.now }
{
    match first_line_feed(text) {
        Some(end) => (without_return(&text[..end]), &text[end + 1..]),
        None => (without_return(text), &text[text.len()..]),
    }
}

impl<'a> Iterator for Lines<'a> {
    type Item = &'a [u8];

    ghost next_gives = { YieldsFirstRef (λ lines. lines) };

    ghost remaining = { item_count (λ lines. lines) };

    fn next(&mut self) -> Option<&'a [u8]> {
        if self.text.is_empty() {
            return None;
        }
        let (line, rest) = first_line(self.text);
        self.text = rest;
        Some(line)
    }
}
