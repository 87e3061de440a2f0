//! The exit status of `ffosolve`.

ghost use Rattle.std.specs.Prelude.{◌≡◌, IfErr, IfOk, IsErr, IsSome};
ghost use Rattle.std.specs.IoError.{error_kind};
ghost use Rattle.std.specs.Process.{exit_status};
ghost use Rattle.program_parts.specs.Inputs.{names_of};
ghost use Rattle.program_parts.specs.Endings.{EndsUnread};
ghost use Rattle.std.specs.Io.KnownBytes.{Appends};
ghost use Rattle.book_files.specs.SolveError.{solve_error_text, solve_status_of};
ghost use Rattle.suite_solver.specs.Programs.{EndsFfosolve, ShowsEnding, ShowsError};

use crate::ffosolve::program;
use book_files::SolveError;
use program_parts::{ErrorStream, ProgramError, borrow_words, memory_or};
use std::alloc::Global;
use std::io;
use std::io::{Eprint, ErrorKind, Read, Write};
use std::marker::Sync;
use std::process::{ExitCode, Termination};
use std::rt::{Clock, Files};
use std::sync::Wait;
use std::thread::Threads;

/// The exit status of the program. Only `program_of` makes one, and it may not be dropped. So a
/// `main` that calls it returns it, and ends with the status of the program.
pub struct ExitStatus {
    status: u8,
}

impl Termination for ExitStatus {
    fn report<R: Eprint>(self, _rt: &R) -> ExitCode
        ensures { exit_status result ≡ self.status }
    {
        let ExitStatus { status } = self;
        ExitCode::from(status)
    }
}

// The exit status after this error.
fn error_status(error: &SolveError<'_>) -> u8
    ensures { result ≡ solve_status_of error.now }
{
    match error {
        SolveError::Program(ProgramError::Memory | ProgramError::BadInput(_)) | SolveError::Mixed =>
            1,
        SolveError::Program(ProgramError::BadWords) => 2,
        SolveError::Program(
            ProgramError::CannotReadInput
            | ProgramError::CannotWriteOutput
            | ProgramError::CannotRead(_, _)
            | ProgramError::CannotWrite(_, _),
        )
        | SolveError::BadBook(_)
        | SolveError::BookOnDevice(_)
        | SolveError::BadPlace(_, _)
        | SolveError::OverwritesFile(_)
        | SolveError::OverwritesBookIn(_) => 3,
    }
}

/// Prints the error that ends the program, and returns the exit status.
pub(crate) fn print_error<E: ErrorStream>(error: &SolveError<'_>, errors: &mut E) -> u8
    ensures status { result ≡ solve_status_of error.now }
    ensures shown { Appends
        (E.contents errors.old) (E.contents errors.new) (solve_error_text error.now) }
{
    error.print(errors);
    error_status(error)
}

/// The whole program, like `program`, for the words that `env::args` returns. The result ends the
/// process with the status, 0 to 3: with 2 if a word is not text, and with 1 if memory for
/// the words was refused.
pub fn program_of<T: Files + Clock + Threads + Wait + Sync, R: Read, W: Write, E: ErrorStream>(
    rt: &T,
    alloc: Global,
    words: io::Result<Vec<String>>,
    input: &mut R,
    output: &mut W,
    errors: &mut E,
) -> ExitStatus
    ensures read { IfOk words (λ all. EndsFfosolve (names_of all.items)
        (R.remaining input.old) (W.contents output.old) (W.contents output.new) result.status) }
    ensures shown { IfOk words (λ all. ShowsEnding (names_of all.items)
        ((stream : E) → IsSome (E.contents stream)) (R.remaining input.old)
        (E.contents errors.old) (E.contents errors.new)
        (W.contents output.old) (W.contents output.new) result.status) }
    ensures unread { IsErr words
        → EndsUnread 1 (W.contents output.old) (W.contents output.new) result.status }
    ensures unread_shown { IsErr words
        → ShowsError (E.contents errors.old) (E.contents errors.new) result.status }
    ensures memory { IfErr words (λ fault. error_kind fault ≡ ErrorKind.OutOfMemory
        → result.status ≡ 1) }
    ensures words { IfErr words (λ fault. (error_kind fault ≡ ErrorKind.OutOfMemory → ⊥)
        → result.status ≡ 2) }
{
    let words = match words {
        Ok(words) => words,
        Err(fault) => {
            let error = SolveError::Program(memory_or(&fault, ProgramError::BadWords));
            return ExitStatus {
                status: print_error(&error, errors),
            };
        }
    };
    match borrow_words(alloc, &words) {
        Ok(borrowed) => ExitStatus {
            status: program(rt, alloc, &borrowed, input, output, errors),
        },
        Err(_) => ExitStatus {
            status: print_error(&SolveError::Program(ProgramError::Memory), errors),
        },
    }
}
