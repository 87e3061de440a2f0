//! The errors that end `ffosolve` or `ffoscores` early.

ghost use Rattle.std.specs.Prelude.{◌≡◌, ◌⊎◌, Some};
ghost use Rattle.std.specs.IoError.{error_kind};
ghost use Rattle.std.specs.Io.KnownBytes.{Appends};
ghost use Rattle.program_parts.specs.ProgramError.{IsReadError, IsReadErrorOf, error_cause, error_reason, error_text};
ghost use Rattle.program_parts.specs.declared.program_error.ProgramError.TheVariants.{BadInput, CannotRead, Memory};

use crate::cause::{cause_text, print_cause};
use crate::streams::ErrorStream;
use program_settings::InputFault;
use std::alloc::{AllocError, AllocFailed};
use std::io::ErrorKind;
use std::{fmt, io};

/// An error that ends either program early. A name is that of a file, as the command line has it,
/// and the kind of the system's error says why it can't be read or written.
#[derive(Drop)]
pub enum ProgramError<'a> {
    /// Memory was refused.
    Memory,
    /// Files are too many or too large.
    BadInput(InputFault),
    /// A word of the command line is not text.
    BadWords,
    /// Standard input can't be read.
    CannotReadInput,
    /// Standard output can't be written.
    CannotWriteOutput,
    /// The file of this name can't be read.
    CannotRead(&'a str, ErrorKind),
    /// The file of this name can't be written.
    CannotWrite(&'a str, ErrorKind),
}

impl From<InputFault> for ProgramError<'_> {
    ghost from_gives = { λ fault error. error ≡ BadInput fault };

    fn from(fault: InputFault) -> Self {
        ProgramError::BadInput(fault)
    }
}

impl From<AllocError> for ProgramError<'_> {
    ghost from_gives = { λ _ error. error ≡ Memory };

    fn from(_error: AllocError) -> Self {
        ProgramError::Memory
    }
}

impl<T: Drop> From<AllocFailed<T>> for ProgramError<'_> {
    ghost from_gives = { λ _ error. error ≡ Memory };

    fn from(_error: AllocFailed<T>) -> Self {
        ProgramError::Memory
    }
}

impl fmt::Display for ProgramError<'_> {
    ghost output = { λ error. Some (error_reason error) };

    #[tactic(auto, unfolding(crate::specs::ProgramError::error_reason))]
    fn fmt<W: fmt::Write>(&self, f: &mut fmt::Formatter<W>) -> fmt::Result {
        match self {
            ProgramError::Memory => f.write_str("out of memory"),
            ProgramError::BadInput(fault) => write!(f, "{fault}"),
            ProgramError::BadWords => f.write_str("cannot read the command line"),
            ProgramError::CannotReadInput => f.write_str("cannot read standard input"),
            ProgramError::CannotWriteOutput => f.write_str("cannot write standard output"),
            ProgramError::CannotRead(name, _) => write!(f, "cannot read {name}"),
            ProgramError::CannotWrite(name, _) => write!(f, "cannot write {name}"),
        }
    }
}

/// The error for a fault of the system: `Memory` if memory was refused, otherwise the other error.
pub fn memory_or<'a>(fault: &io::Error, other: ProgramError<'a>) -> ProgramError<'a>
    ensures memory { error_kind fault.now ≡ ErrorKind.OutOfMemory → result ≡ Memory }
    ensures other { (error_kind fault.now ≡ ErrorKind.OutOfMemory → ⊥) → result ≡ other.entry }
    ensures either { (result ≡ Memory) ⊎ (result ≡ other.entry) }
{
    match fault.kind() {
        ErrorKind::OutOfMemory => ProgramError::Memory,
        _ => other,
    }
}

/// The error for a failed read of the file of this name: `Memory` if memory was refused, otherwise
/// `CannotRead` with the name and the kind.
pub fn read_error<'a>(fault: &io::Error, name: &'a str) -> ProgramError<'a>
    ensures memory { error_kind fault.now ≡ ErrorKind.OutOfMemory → result ≡ Memory }
    ensures name { (error_kind fault.now ≡ ErrorKind.OutOfMemory → ⊥)
        → result ≡ CannotRead name.entry (error_kind fault.now) }
    ensures kind { IsReadError result }
    ensures named { IsReadErrorOf name.entry.now result }
{
    memory_or(fault, ProgramError::CannotRead(name, fault.kind()))
}

impl ProgramError<'_> {
    /// Says why a file can't be read or written; empty if nothing is known of it.
    pub fn cause(&self) -> &'static str
        ensures { result.now ≡ error_cause self.now }
    {
        match self {
            ProgramError::CannotRead(_, kind) | ProgramError::CannotWrite(_, kind) => {
                cause_text(*kind)
            }
            _ => "",
        }
    }

    /// Writes the error as one line: the name of the program, `: `, the reason, and LF. A second
    /// line has the cause, if it is known.
    #[tactic(auto, unfolding(crate::specs::ProgramError::error_text, crate::specs::Cause::error_line))]
    pub fn print<E: ErrorStream>(&self, program: &str, errors: &mut E)
        ensures { Appends
            (E.contents errors.old) (E.contents errors.new) (error_text program.now self.now) }
    {
        let error = self;
        errors.show(format_args!("{program}: {error}\n"));
        print_cause(program, self.cause(), errors)
    }
}
