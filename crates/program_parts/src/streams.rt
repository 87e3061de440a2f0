//! The streams of a program, and what clap returns in place of options, printed.

ghost use Rattle.std.specs.Prelude.{◌≡◌, ◌≢◌, ◌⊎◌, ◌↔◌, IfSome, IsErr, IsOk};
ghost use Rattle.std.specs.Io.KnownBytes.{Appends};
ghost use Rattle.clap.specs.Words.{kind_of};
ghost use Rattle.program_parts.specs.CommandLine.{IsTextKind};
ghost use Rattle.program_parts.specs.ProgramError.{error_text};
ghost use Rattle.program_parts.specs.declared.program_error.ProgramError.TheVariants.{CannotWriteOutput};

use crate::program_error::ProgramError;
use clap::error::ErrorKind;
use std::fmt::Display;
use std::io;
use std::io::{Stderr, Write};
use std::marker::Send;

/// A stream on which errors are shown. Standard error is one. Standard output is not, so a `main`
/// can't pass it as one.
pub trait ErrorStream: Write + Send {
    /// Writes the text. A failure changes nothing else, since nobody could be told. A stream whose
    /// content is known has to take every text.
    fn show<D: Display + Drop>(&mut self, text: D)
        ensures { IfSome (D.output text)
            (Appends (Self.contents self.old) (Self.contents self.new)) };
}

impl ErrorStream for Stderr {
    fn show<D: Display + Drop>(&mut self, text: D) {
        let _ = self.write_fmt(text);
    }
}

// Writes the help or the version, which clap returns as an error.
fn write_help<W: Write>(output: &mut W, help: &clap::Error) -> io::Result<()> {
    write!(output, "{help}")?;
    output.flush()
}

// The exit status after the help or the version: 0 if it was written to standard output, or
// otherwise 3, and the error is printed.
fn end_help<E: ErrorStream>(program: &str, written: io::Result<()>, errors: &mut E) -> u8
    ensures written { IsOk written
        → (result ≡ 0) × (E.contents errors.new ≡ E.contents errors.old) }
    ensures failed { IsErr written → (result ≡ 3) × Appends
        (E.contents errors.old) (E.contents errors.new) (error_text program.now CannotWriteOutput) }
{
    match written {
        Ok(()) => 0,
        Err(_) => {
            ProgramError::CannotWriteOutput.print(program, errors);
            3
        }
    }
}

/// Prints what clap returns in place of options: help and the version on standard output, the
/// reason of a refusal on standard error. The result is the exit status of the program: 0 for help
/// and the version, 2 for a refusal, and 3 if standard output can't be written, which is
/// reported on standard error.
pub fn end_without_options<W: Write, E: ErrorStream>(
    program: &str,
    error: &clap::Error,
    output: &mut W,
    errors: &mut E,
) -> u8
    ensures status { (result ≡ 0) ⊎ ((result ≡ 2) ⊎ (result ≡ 3)) }
    ensures helped { (result ≢ 2) ↔ IsTextKind (kind_of error.now) }
    ensures unwritten { result ≡ 2 → W.contents output.new ≡ W.contents output.old }
    ensures quiet { result ≡ 0 → E.contents errors.new ≡ E.contents errors.old }
    ensures failed { result ≡ 3 → Appends
        (E.contents errors.old) (E.contents errors.new) (error_text program.now CannotWriteOutput) }
{
    match error.kind() {
        ErrorKind::DisplayHelp | ErrorKind::DisplayVersion => {
            end_help(program, write_help(output, error), errors)
        }
        _ => {
            errors.show(format_args!("{error}"));
            2
        }
    }
}
