//! The first line of a book (docs/book-format.md).

ghost use Rattle.std.specs.Prelude.{◌≡◌, [], ◌∷◌, ◌++◌, OnOk, IfSome, Some};
ghost use Rattle.std.specs.Io.KnownBytes.{Appends};
ghost use Rattle.solved_book.specs.Claims.{scoring_in, scoring_of_header, scoring_of_lines};
ghost use Rattle.solved_book.specs.Books.{header};
ghost use Rattle.obf_text.specs.LineText.{lines_of};
ghost use Rattle.othello_rules.specs.declared.scoring.Scoring.{Scoring};

use obf_text::split_lines;
use othello_rules::Scoring;
use std::io;
use std::io::Write;

// How a header begins. The name of its scoring follows.
const HEADER: &[u8] = b"% ffobook 2 ";

/// Writes the line that names a scoring, and its end.
#[tactic(auto, unfolding(crate::specs::Books::header))]
pub(crate) fn write_header<W: Write>(writer: &mut W, scoring: Scoring) -> io::Result<()>
    ensures { OnOk result
        (Appends (W.contents writer.old) (W.contents writer.new) (header scoring ++ 10 ∷ [])) }
{
    let name = scoring.name();
    writer.write_all(HEADER)?;
    write!(writer, "{name}\n")
}

/// The scoring that a header names. None if the line is not the header of a book.
#[tactic(auto, unfolding(crate::specs::Books::header))]
pub fn header_scoring(line: &[u8]) -> Option<Scoring>
    ensures value { result ≡ scoring_of_header line.now }
    ensures header { IfSome result (λ g. line.now ≡ header g) }
    ensures all { (g : Scoring) → line.now ≡ header g → result ≡ Some g }
{
    match line.strip_prefix(HEADER) {
        Some(name) => Scoring::from_name(name),
        None => None,
    }
}

// The scoring that a first line names: `Winner` if it is not a header, None if it is an
// unknown one.
fn read_header(line: &[u8]) -> Option<Scoring>
    ensures { result ≡ scoring_in line.now }
{
    if line.starts_with(b"% ffobook ") {
        return header_scoring(line);
    }
    Some(Scoring::Winner)
}

/// The scoring of a book by the first line of its text.
pub(crate) fn read_first_line(text: &[u8]) -> Option<Scoring>
    ensures { result ≡ scoring_of_lines (lines_of text.now) }
{
    match split_lines(text).next() {
        Some(line) => read_header(line),
        None => Some(Scoring::Winner),
    }
}
