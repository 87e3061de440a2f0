//! Why a text is not a book.

ghost use Rattle.std.specs.Prelude.{◌≡◌, Some};
ghost use Rattle.solved_book.specs.Faults.{book_fault_text};
ghost use Rattle.solved_book.specs.declared.book_fault.BookFault.TheVariants.{Memory};

use obf_text::LineFault;
use std::alloc::{AllocError, AllocFailed};
use std::error::Error;
use std::fmt;

/// Why a text is not a book. The numbers are those of lines, from 1, with skipped lines counted.
/// The fault is that of the first faulty line.
#[derive(Clone, Copy, PartialEq, Eq, Debug, Drop)]
pub enum BookFault {
    /// The line is not a line of OBF text, and why. This is never `LineFault::Memory`.
    Line(usize, LineFault),
    /// The line lists no move.
    NoMoves(usize),
    /// The position is not greater than the one before it.
    Unsorted(usize),
    /// White is to move, or the position is not the canonical one of its images.
    NotCanonical(usize),
    /// Memory was refused.
    Memory,
    /// The first line begins with `% ffobook ` and is not the header of a scoring.
    Header,
}

impl fmt::Display for BookFault {
    ghost output = { λ fault. Some (book_fault_text fault) };

    #[tactic(auto, unfolding(crate::specs::Faults::book_fault_text))]
    fn fmt<W: fmt::Write>(&self, f: &mut fmt::Formatter<W>) -> fmt::Result {
        match self {
            BookFault::Line(number, fault) => write!(f, "book line {number}: {fault}"),
            BookFault::NoMoves(number) => write!(f, "book line {number}: no moves"),
            BookFault::Unsorted(number) => write!(f, "book line {number}: not in order"),
            BookFault::NotCanonical(number) => write!(f, "book line {number}: not canonical"),
            BookFault::Memory => f.write_str("out of memory"),
            BookFault::Header => f.write_str("book line 1: unknown header"),
        }
    }
}

impl Error for BookFault {}

impl From<AllocError> for BookFault {
    ghost from_gives = { λ _ fault. fault ≡ Memory };

    fn from(_error: AllocError) -> BookFault {
        BookFault::Memory
    }
}

impl<T: Drop> From<AllocFailed<T>> for BookFault {
    ghost from_gives = { λ _ fault. fault ≡ Memory };

    fn from(_error: AllocFailed<T>) -> BookFault {
        BookFault::Memory
    }
}
