//! Why a line is refused, and the words for it.

ghost use Rattle.std.specs.Prelude.{◌≡◌, Some};
ghost use Rattle.obf_text.specs.Faults.{line_fault_text, too_many_text};
ghost use Rattle.obf_text.specs.declared.line_fault.LineFault.TheVariants.{Memory};

use std::alloc::AllocError;
use std::error::Error;
use std::fmt;

/// Why a line can't be read. A column is the place of a byte in the line, counted from 1. A report
/// prints the text of a fault as its reason.
#[derive(Clone, Copy, PartialEq, Eq, Debug, Drop)]
pub enum LineFault {
    /// The line ends after this number of squares, from 1 to 63.
    Short(usize),
    /// The byte at this column is in the place of a square but is not one.
    BadCell(usize),
    /// The side to move is missing at this column: another byte stands there, or the line ends
    /// before it.
    BadSide(usize),
    /// Memory for the listed moves was refused.
    Memory,
}

impl fmt::Display for LineFault {
    ghost output = { λ fault. Some (line_fault_text fault) };

    #[tactic(auto, unfolding(crate::specs::Faults::line_fault_text))]
    fn fmt<W: fmt::Write>(&self, f: &mut fmt::Formatter<W>) -> fmt::Result {
        match self {
            LineFault::Short(found) => write!(f, "board has {found} of 64 squares"),
            LineFault::BadCell(column) => write!(f, "bad square at column {column}"),
            LineFault::BadSide(column) => write!(f, "bad side at column {column}"),
            LineFault::Memory => f.write_str("out of memory"),
        }
    }
}

impl Error for LineFault {}

impl From<AllocError> for LineFault {
    ghost from_gives = { λ _ fault. fault ≡ Memory };

    fn from(_error: AllocError) -> LineFault {
        LineFault::Memory
    }
}

/// Why a position is not solved: the number of its empty squares, and a limit below it.
/// Reports and lists print the text as their reason.
#[derive(Clone, Copy, PartialEq, Eq, Debug, Drop)]
pub struct ManyEmpties {
    pub found: u8,
    pub limit: u8,
}

impl fmt::Display for ManyEmpties {
    ghost output = { λ many. Some (too_many_text many.found many.limit) };

    #[tactic(auto, unfolding(crate::specs::Faults::too_many_text))]
    fn fmt<W: fmt::Write>(&self, f: &mut fmt::Formatter<W>) -> fmt::Result {
        let found = self.found;
        let limit = self.limit;
        write!(f, "{found} empties, limit {limit}")
    }
}
