//! The errors that end `ffosolve` early.

ghost use Rattle.std.specs.Prelude.{◌≡◌, ◌⊎◌, Some};
ghost use Rattle.std.specs.IoError.{error_kind};
ghost use Rattle.std.specs.Io.KnownBytes.{Appends};
ghost use Rattle.book_files.specs.SolveError.{IsPlaceErrorOf, IsSilent, book_error, run_error};
ghost use Rattle.book_files.specs.SolveError.{solve_error_cause, solve_error_reason, solve_error_text, solve_status_of};
ghost use Rattle.program_parts.specs.declared.program_error.ProgramError.TheVariants.{BadInput, Memory};
ghost use Rattle.book_files.specs.declared.solve_error.SolveError.TheVariants.{BadPlace, Program};

use program_parts::{ErrorStream, ProgramError, cause_text, print_cause};
use program_settings::InputFault;
use solved_book::BookFault;
use std::alloc::AllocError;
use std::io::ErrorKind;
use std::{fmt, io};
use suite_runs::RunFault;

/// An error that ends `ffosolve` early. A name is that of a file, as the command line has it.
#[derive(Drop)]
pub enum SolveError<'a> {
    /// An error that may end `ffoscores`, too.
    Program(ProgramError<'a>),
    /// The job board refused a step, or a job under another scoring was taken.
    Mixed,
    /// The file that is read as a book has this fault. It is never `BookFault::Memory`, for which
    /// `Program(Memory)` stands.
    BadBook(BookFault),
    /// The book to be read is on a device of this name, which may have no end.
    BookOnDevice(&'a str),
    /// A book can't be written under this name, as a test showed before anything was solved. The
    /// kind of the system's error says why.
    BadPlace(&'a str, ErrorKind),
    /// The file of this name, where a book is to be written, is neither empty nor a book.
    OverwritesFile(&'a str),
    /// The file of this name, where a book is to be written, is the book that is read.
    OverwritesBookIn(&'a str),
}

impl<'a> From<ProgramError<'a>> for SolveError<'a> {
    ghost from_gives = { λ error made. made ≡ Program error };

    fn from(error: ProgramError<'a>) -> Self {
        SolveError::Program(error)
    }
}

impl From<InputFault> for SolveError<'_> {
    ghost from_gives = { λ fault error. error ≡ Program (BadInput fault) };

    fn from(fault: InputFault) -> Self {
        SolveError::Program(ProgramError::BadInput(fault))
    }
}

impl From<RunFault> for SolveError<'_> {
    ghost from_gives = { λ fault error. error ≡ run_error fault };

    fn from(fault: RunFault) -> Self {
        match fault {
            RunFault::Memory => SolveError::Program(ProgramError::Memory),
            RunFault::Mixed => SolveError::Mixed,
            RunFault::TooManyFiles => {
                SolveError::Program(ProgramError::BadInput(InputFault::TooManyFiles))
            }
            RunFault::FileTooLarge(sender) => {
                SolveError::Program(ProgramError::BadInput(InputFault::FileTooLarge(sender)))
            }
        }
    }
}

impl From<BookFault> for SolveError<'_> {
    ghost from_gives = { λ fault error. error ≡ book_error fault };

    fn from(fault: BookFault) -> Self {
        match fault {
            BookFault::Memory => SolveError::Program(ProgramError::Memory),
            _ => SolveError::BadBook(fault),
        }
    }
}

impl From<AllocError> for SolveError<'_> {
    ghost from_gives = { λ _ error. error ≡ Program Memory };

    fn from(_error: AllocError) -> Self {
        SolveError::Program(ProgramError::Memory)
    }
}

impl fmt::Display for SolveError<'_> {
    ghost output = { λ error. Some (solve_error_reason error) };

    #[tactic(auto, unfolding(crate::specs::SolveError::solve_error_reason))]
    fn fmt<W: fmt::Write>(&self, f: &mut fmt::Formatter<W>) -> fmt::Result {
        match self {
            SolveError::Program(error) => write!(f, "{error}"),
            SolveError::Mixed => f.write_str("answers mixed"),
            SolveError::BadBook(fault) => write!(f, "{fault}"),
            SolveError::BookOnDevice(name) => write!(f, "cannot read {name}"),
            SolveError::BadPlace(name, _) => write!(f, "cannot write {name}"),
            SolveError::OverwritesFile(name) => write!(
                f,
                "{name} is not a book and would be overwritten"
            ),
            SolveError::OverwritesBookIn(name) => write!(
                f,
                "{name} is read and would be overwritten: write --book-out NEW, then ffosolve-many --merge-books {name} NEW"
            ),
        }
    }
}

// The error for a failed test of a book's place: `Program(Memory)` if memory was refused,
// otherwise `BadPlace` with the name and the kind.
pub(crate) fn place_error<'a>(fault: &io::Error, name: &'a str) -> SolveError<'a>
    ensures memory { error_kind fault.now ≡ ErrorKind.OutOfMemory → result ≡ Program Memory }
    ensures name { (error_kind fault.now ≡ ErrorKind.OutOfMemory → ⊥)
        → result ≡ BadPlace name.entry (error_kind fault.now) }
    ensures named { IsPlaceErrorOf name.entry.now result }
    ensures status { (solve_status_of result ≡ 1) ⊎ (solve_status_of result ≡ 3) }
    ensures silent { IsSilent result }
{
    match fault.kind() {
        ErrorKind::OutOfMemory => SolveError::Program(ProgramError::Memory),
        kind => SolveError::BadPlace(name, kind),
    }
}

impl SolveError<'_> {
    // Why a file can't be read or written; empty if nothing is known of it.
    fn cause(&self) -> &'static str
        ensures { result.now ≡ solve_error_cause self.now }
    {
        match self {
            SolveError::Program(error) => error.cause(),
            SolveError::BookOnDevice(_) => "it is neither a file nor a pipe",
            SolveError::BadPlace(_, kind) => cause_text(*kind),
            _ => "",
        }
    }

    /// Writes the error as one line: `ffosolve: `, the reason, and LF. A second line has the cause,
    /// if it is known.
    pub fn print<E: ErrorStream>(&self, errors: &mut E)
        ensures { Appends
            (E.contents errors.old) (E.contents errors.new) (solve_error_text self.now) }
    {
        let (program, error) = ("ffosolve", self);
        errors.show(format_args!("{program}: {error}\n"));
        print_cause(program, self.cause(), errors)
    }
}
