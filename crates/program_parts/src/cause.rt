//! Why a file can't be read or written, in words.

ghost use Rattle.std.specs.Prelude.{◌≡◌};
ghost use Rattle.std.specs.Io.KnownBytes.{Appends};
ghost use Rattle.program_parts.specs.Cause.{cause_line, cause_text};

use crate::streams::ErrorStream;
use std::io::ErrorKind;

/// Says in words why a file can't be read or written, by the kind of the error. The text is empty
/// if the kind says nothing more, or if the file is not there.
pub fn cause_text(kind: ErrorKind) -> &'static str
    ensures { result.now ≡ cause_text kind }
{
    match kind {
        ErrorKind::PermissionDenied => "permission denied",
        ErrorKind::AlreadyExists => "another file is in the way",
        ErrorKind::NotADirectory => "a part of its name is not a folder",
        ErrorKind::IsADirectory => "it is a folder",
        ErrorKind::ReadOnlyFilesystem => "the file system is read-only",
        ErrorKind::FilesystemLoop => "too many links lead to it",
        ErrorKind::InvalidInput => "the file system refuses it",
        ErrorKind::StorageFull => "no space left",
        ErrorKind::QuotaExceeded => "the quota is used up",
        ErrorKind::FileTooLarge => "the file would be too large",
        ErrorKind::ResourceBusy => "it is in use",
        ErrorKind::InvalidFilename => "its name is too long",
        _ => "",
    }
}

/// Writes the line of a cause: the name of the program, `: `, the cause and LF. Writes nothing if
/// the cause is empty.
#[tactic(auto, unfolding(crate::specs::Cause::cause_line, crate::specs::Cause::error_line))]
pub fn print_cause<E: ErrorStream>(program: &str, cause: &str, errors: &mut E)
    ensures { Appends
        (E.contents errors.old) (E.contents errors.new) (cause_line program.now cause.now) }
{
    if !cause.is_empty() {
        errors.show(format_args!("{program}: {cause}\n"));
    }
}
