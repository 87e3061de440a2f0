//! Why the options of a command line are not read.

ghost use Rattle.std.specs.Prelude.{◌≡◌};
ghost use Rattle.program_parts.specs.CommandLine.{IsFaultBy};
ghost use Rattle.program_parts.specs.declared.option_fault.OptionFault.TheVariants.{Memory};

use clap::error::ErrorKind;
use std::alloc::{AllocError, AllocFailed};
use thiserror::Error;

/// Why the options of a command line are not read.
#[derive(Debug, Drop, Error)]
pub enum OptionFault {
    /// Memory was refused, here or in clap.
    #[error("out of memory")]
    Memory,
    /// clap's error: why the words are refused, or the help or the version that they ask for.
    #[error("{0}")]
    Refused(clap::Error),
}

impl From<AllocError> for OptionFault {
    ghost from_gives = { λ _ fault. fault ≡ Memory };

    fn from(_error: AllocError) -> OptionFault {
        OptionFault::Memory
    }
}

impl<T: Drop> From<AllocFailed<T>> for OptionFault {
    ghost from_gives = { λ _ fault. fault ≡ Memory };

    fn from(_error: AllocFailed<T>) -> OptionFault {
        OptionFault::Memory
    }
}

impl From<clap::Error> for OptionFault {
    ghost from_gives = { λ error fault. IsFaultBy error fault };

    fn from(error: clap::Error) -> OptionFault {
        match error.kind() {
            ErrorKind::OutOfMemory => OptionFault::Memory,
            _ => OptionFault::Refused(error),
        }
    }
}
