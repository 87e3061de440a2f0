//! Why a call writes nothing, with the statuses of `ffosolve.h`.

ghost use Rattle.std.specs.Prelude.{◌≡◌, ◌≢◌, pos};
ghost use Rattle.ffosolve_c.specs.Refusals.{call_status, fault_refusal};

use obf_text::LineFault;

/// Why a call writes nothing but `at`. If several refusals fit, the first in this order is
/// returned; but for a list of positions the refusal is that of the first refused position, and
/// for a line `Skipped` or the line's fault comes before `NoMemory`.
#[derive(Clone, Copy)]
pub enum CallRefusal {
    /// No scoring has the number.
    UnknownScoring,
    /// The table has more than `BoundTable::MOST_ENTRIES` entries.
    TooManyEntries,
    /// There are not as many answers as positions.
    UnequalLengths,
    /// The masks of a position share a square.
    SharedSquare,
    /// A position has more than `Task::MOST_EMPTIES` empty squares.
    TooManyEmpties,
    /// The mover can't move to the square, or the square's number is above 63.
    NoMove,
    /// Memory was refused, for the table or for the moves that a line lists.
    NoMemory,
    /// The line is blank or a comment.
    Skipped,
    /// The line ends before its 64th square.
    ShortBoard,
    /// A byte in the place of a square is not one.
    BadSquare,
    /// The side to move is missing.
    BadSide,
    /// No symmetry has the number.
    UnknownSymmetry,
}

impl CallRefusal {
    /// The status that C reads, from 1 to 12.
    pub fn status(self) -> i32
        ensures number { result ≡ call_status self }
        ensures not_done { result ≢ pos 0 }
    {
        match self {
            CallRefusal::UnknownScoring => 1,
            CallRefusal::TooManyEntries => 2,
            CallRefusal::UnequalLengths => 3,
            CallRefusal::SharedSquare => 4,
            CallRefusal::TooManyEmpties => 5,
            CallRefusal::NoMove => 6,
            CallRefusal::NoMemory => 7,
            CallRefusal::Skipped => 8,
            CallRefusal::ShortBoard => 9,
            CallRefusal::BadSquare => 10,
            CallRefusal::BadSide => 11,
            CallRefusal::UnknownSymmetry => 12,
        }
    }

    /// Why a line with this fault is refused.
    pub fn of_fault(fault: LineFault) -> CallRefusal
        ensures { result ≡ fault_refusal fault }
    {
        match fault {
            LineFault::Short(_) => CallRefusal::ShortBoard,
            LineFault::BadCell(_) => CallRefusal::BadSquare,
            LineFault::BadSide(_) => CallRefusal::BadSide,
            LineFault::Memory => CallRefusal::NoMemory,
        }
    }
}
