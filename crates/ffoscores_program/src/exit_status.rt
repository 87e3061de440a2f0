//! The exit status of `ffoscores`.

ghost use Rattle.std.specs.Prelude.{◌≡◌, IfErr, IfOk, IsErr, codes};
ghost use Rattle.std.specs.IoError.{error_kind};
ghost use Rattle.std.specs.Process.{exit_status};
ghost use Rattle.program_parts.specs.Inputs.{names_of};
ghost use Rattle.program_parts.specs.Endings.{EndsUnread};
ghost use Rattle.program_parts.specs.ProgramError.{error_text};
ghost use Rattle.std.specs.Io.KnownBytes.{Appends};
ghost use Rattle.ffoscores_program.specs.Lists.{EndsFfoscores, ShowsEnding, ShowsError, list_status_of};

use crate::ffoscores::list_program;
use program_parts::{ErrorStream, ProgramError, borrow_words, memory_or};
use std::alloc::Global;
use std::io;
use std::io::{Eprint, ErrorKind, Read, Write};
use std::process::{ExitCode, Termination};
use std::rt::Files;
use std::sync::Wait;
use std::thread::Threads;

/// The exit status of the program. Only `list_program_of` makes one, and it may not be dropped. So
/// a `main` that calls it returns it, and ends with the status of the program. It is not a type of
/// `program_parts`: if this crate could make one with any status, a `main` could, too.
pub struct ExitStatus {
    status: u8,
}

impl Termination for ExitStatus {
    fn report<R: Eprint>(self, _rt: &R) -> ExitCode
        ensures { exit_status result ≡ self.status }
    {
        let ExitStatus { status } = self;
        ExitCode::from(status)
    }
}

// The exit status of `ffoscores` after this error.
fn list_status(error: &ProgramError<'_>) -> u8
    ensures { result ≡ list_status_of error.now }
{
    match error {
        ProgramError::BadWords => 2,
        _ => 3,
    }
}

/// Prints the error that ends the program, and returns the exit status.
pub(crate) fn print_error<E: ErrorStream>(error: &ProgramError<'_>, errors: &mut E) -> u8
    ensures status { result ≡ list_status_of error.now }
    ensures shown { Appends
        (E.contents errors.old) (E.contents errors.new) (error_text (codes "ffoscores") error.now) }
{
    error.print("ffoscores", errors);
    list_status(error)
}

/// The whole program, like `list_program`, for the words that `env::args` returns. The result ends
/// the process with the status, 0 to 3: with 2 if a word is not text, and with 3 if memory
/// for the words was refused.
pub fn list_program_of<T: Files + Threads + Wait, R: Read, W: Write, E: ErrorStream>(
    rt: &T,
    alloc: Global,
    words: io::Result<Vec<String>>,
    input: &mut R,
    output: &mut W,
    errors: &mut E,
) -> ExitStatus
    ensures read { IfOk words (λ all. EndsFfoscores (names_of all.items)
        (R.remaining input.old) (W.contents output.old) (W.contents output.new) result.status) }
    ensures shown { IfOk words (λ all. ShowsEnding (names_of all.items)
        (E.contents errors.old) (E.contents errors.new)
        (W.contents output.old) (W.contents output.new) result.status) }
    ensures unread { IsErr words
        → EndsUnread 3 (W.contents output.old) (W.contents output.new) result.status }
    ensures unread_shown { IsErr words
        → ShowsError (E.contents errors.old) (E.contents errors.new) result.status }
    ensures memory { IfErr words (λ fault. error_kind fault ≡ ErrorKind.OutOfMemory
        → result.status ≡ 3) }
    ensures words { IfErr words (λ fault. (error_kind fault ≡ ErrorKind.OutOfMemory → ⊥)
        → result.status ≡ 2) }
{
    let words = match words {
        Ok(words) => words,
        Err(fault) => {
            return ExitStatus {
                status: print_error(&memory_or(&fault, ProgramError::BadWords), errors),
            };
        }
    };
    match borrow_words(alloc, &words) {
        Ok(borrowed) => ExitStatus {
            status: list_program(rt, alloc, &borrowed, input, output, errors),
        },
        Err(_) => ExitStatus {
            status: print_error(&ProgramError::Memory, errors),
        },
    }
}
