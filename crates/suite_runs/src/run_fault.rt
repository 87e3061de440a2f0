//! Why a run makes no reports.

ghost use Rattle.std.specs.Prelude.{◌≡◌, Some};
ghost use Rattle.suite_runs.specs.RunFault.{fault_of_submit, run_fault_of, run_fault_text, worse_fault};
ghost use Rattle.suite_runs.specs.declared.run_fault.RunFault.TheVariants.{Memory};

use job_board::SubmitFault;
use program_settings::InputFault;
use std::alloc::{AllocError, AllocFailed};
use std::error::Error;
use std::fmt;

/// Why a run makes no reports. A sender is the number of a file, counted from 0.
#[derive(Clone, Copy, PartialEq, Eq, Debug, Drop)]
pub enum RunFault {
    /// Memory was refused.
    Memory,
    /// The desk refused a step for a reason other than memory, or a job under another scoring was
    /// taken.
    Mixed,
    /// There are more than `MOST_FILES` files.
    TooManyFiles,
    /// A file has more than `MOST_BYTES` bytes. This is the sender of the first such file.
    FileTooLarge(u32),
}

impl fmt::Display for RunFault {
    ghost output = { λ fault. Some (run_fault_text fault) };

    #[tactic(auto, unfolding(crate::specs::RunFault::run_fault_text))]
    fn fmt<W: fmt::Write>(&self, f: &mut fmt::Formatter<W>) -> fmt::Result {
        match self {
            RunFault::Memory => f.write_str("out of memory"),
            RunFault::Mixed => f.write_str("answers mixed"),
            RunFault::TooManyFiles => InputFault::TooManyFiles.fmt(f),
            RunFault::FileTooLarge(sender) => InputFault::FileTooLarge(*sender).fmt(f),
        }
    }
}

impl Error for RunFault {}

impl From<AllocError> for RunFault {
    ghost from_gives = { λ _ fault. fault ≡ Memory };

    fn from(_error: AllocError) -> RunFault {
        RunFault::Memory
    }
}

impl<T: Drop> From<AllocFailed<T>> for RunFault {
    ghost from_gives = { λ _ fault. fault ≡ Memory };

    fn from(_error: AllocFailed<T>) -> RunFault {
        RunFault::Memory
    }
}

impl From<InputFault> for RunFault {
    ghost from_gives = { λ refused fault. fault ≡ run_fault_of refused };

    fn from(refused: InputFault) -> RunFault {
        match refused {
            InputFault::TooManyFiles => RunFault::TooManyFiles,
            InputFault::FileTooLarge(sender) => RunFault::FileTooLarge(sender),
        }
    }
}

impl From<SubmitFault> for RunFault {
    ghost from_gives = { λ refused fault. fault ≡ fault_of_submit refused };

    fn from(refused: SubmitFault) -> RunFault {
        match refused {
            SubmitFault::Memory => RunFault::Memory,
            _ => RunFault::Mixed,
        }
    }
}

/// The fault that is kept of an earlier and a later one: `Memory` if the earlier one is `Memory`,
/// otherwise the later one.
pub(crate) fn worse_fault(before: Option<RunFault>, fault: RunFault) -> RunFault
    ensures { result ≡ worse_fault before fault }
{
    match before {
        Some(RunFault::Memory) => RunFault::Memory,
        _ => fault,
    }
}
