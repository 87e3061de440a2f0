//! Texts cut into chunks: whole lines that are scored together.

ghost use Rattle.std.specs.Prelude.{◌≡◌, ◌<◌, ◌++◌, IfSome, IfNone, [], length};
ghost use Rattle.obf_text.specs.LineText.{lines_of};
ghost use Rattle.list_printer.specs.Chunks.{EndsLine, left_lines, left_size};

use endgame_search::Task;
use obf_text::{line_len, without_first_blanks};

// Scoring a line with at most this many empty squares takes less time than starting a thread.
const FEW_EMPTIES: usize = 7;

// A line with this many empty squares or more is a chunk of its own.
const MANY_EMPTIES: usize = 12;

// The greatest number of lines of a chunk. A thread scores eight lines of 10 empty squares in about
// 8 milliseconds.
const MOST_LINES: u32 = 8;

/// The first lines of a text, and the text after them.
#[derive(Clone, Copy)]
pub(crate) struct Chunk<'a> {
    pub front: &'a [u8],
    pub rest: &'a [u8],
    /// Whether the calling thread is to score the lines: there are no workers, or scoring takes
    /// less time than starting a thread.
    pub is_for_caller: bool,
    /// Whether threads that score the lines at once, over one table, are faster together than one of
    /// them alone.
    pub is_worth_sharing: bool,
}

// The number of empty squares on the board of a text's first line: among the 64 bytes after its
// first blanks, up to a `%`. It is 0 if they are more than the limit, since such a line is refused.
fn empties_in(text: &[u8], limit: u8) -> usize {
    let board = without_first_blanks(text);
    let mut empties = 0usize;
    for byte in &board[..board.len().min(64)] {
        match byte {
            b'-' | b'.' => empties = empties.saturating_add(1),
            b'\n' | b'%' => break,
            _ => {}
        }
    }
    if empties <= usize::from(limit) {
        empties
    } else {
        0
    }
}

// The number of bytes of a text's first chunk: of one line if the calling thread is to score it,
// or if it has many empty squares; otherwise of several, up to a line with many.
fn chunk_len(text: &[u8], limit: u8, is_for_caller: bool) -> usize
    requires { 0 < length text.now }
    ensures ended { EndsLine text.now result }
    ensures some { 0 < result }
{
    let mut end = line_len(text);
    if is_for_caller || empties_in(text, limit) >= MANY_EMPTIES {
        return end;
    }
    for _ in 1..MOST_LINES {
        let rest = &text[end..];
        if rest.is_empty() || empties_in(rest, limit) >= MANY_EMPTIES {
            return end;
        }
        end += line_len(rest);
    }
    end
}

// The first chunk of a text that is not empty: one line, or several if a thread of their own is
// to score them and each takes little time.
fn first_chunk(text: &[u8], limit: u8, has_no_workers: bool) -> Chunk<'_>
    requires { 0 < length text.now }
    ensures lines { lines_of text.now ≡ lines_of result.front.now ++ lines_of result.rest.now }
    ensures less { length result.rest.now < length text.now }
{
    let empties = empties_in(text, limit);
    let is_for_caller = has_no_workers || empties <= FEW_EMPTIES;
    let end = chunk_len(text, limit, is_for_caller);
    Chunk {
        front: &text[..end],
        rest: &text[end..],
        is_for_caller,
        // What is searched are the positions after the moves.
        is_worth_sharing: empties > usize::from(Task::FEWEST_SHARED_EMPTIES),
    }
}

/// What is left of some texts.
#[derive(Clone, Copy)]
pub(crate) struct Lists<'a> {
    /// What is left of the text that was begun.
    pub rest: &'a [u8],
    /// The texts after it.
    pub texts: &'a [Vec<u8>],
}

impl<'a> Lists<'a> {
    /// Takes the first chunk of what is left.
    pub fn next_chunk(&mut self, limit: u8, has_no_workers: bool) -> Option<Chunk<'a>>
        ensures some { IfSome result (λ chunk. left_lines self.old
            ≡ lines_of chunk.front.now ++ left_lines self.new) }
        ensures less { IfSome result (λ _. left_size self.new < left_size self.old) }
        ensures none { IfNone result (left_lines self.old ≡ []) }
    {
        while self.rest.is_empty() {
            let [text, texts @ ..] = self.texts else {
                return None;
            };
            self.rest = text;
            self.texts = texts;
        }
        let chunk = first_chunk(self.rest, limit, has_no_workers);
        self.rest = chunk.rest;
        Some(chunk)
    }
}
