//! Why the files of a run are refused.

ghost use Rattle.std.specs.Prelude.{◌≡◌, ◌<◌, ◌≤◌, length, None, Some, IfSome, IsOk};
ghost use Rattle.std.specs.List.{position};
ghost use Rattle.obf_text.specs.LineText.{texts_of};
ghost use Rattle.program_settings.specs.InputFault.{Refuses, first_large, input_fault_text, is_large, refusal_of};
ghost use Rattle.program_settings.specs.Limits.{most_files};

use crate::limits::{MOST_BYTES, MOST_FILES};
use std::error::Error;
use std::fmt;

/// Why the files of a run are refused.
#[derive(Clone, Copy, PartialEq, Eq, Debug, Drop)]
pub enum InputFault {
    /// There are more than `MOST_FILES` files.
    TooManyFiles,
    /// A file has more than `MOST_BYTES` bytes. This is the number of the first such file, counted
    /// from 0.
    FileTooLarge(u32),
}

impl fmt::Display for InputFault {
    ghost output = { λ fault. Some (input_fault_text fault) };

    #[tactic(auto, unfolding(crate::specs::InputFault::input_fault_text))]
    fn fmt<W: fmt::Write>(&self, f: &mut fmt::Formatter<W>) -> fmt::Result {
        match self {
            InputFault::TooManyFiles => write!(f, "more than {MOST_FILES} files"),
            InputFault::FileTooLarge(number) => {
                let counted = u64::from(*number) + 1;
                write!(f, "file {counted} is larger than {MOST_BYTES} bytes")
            }
        }
    }
}

impl Error for InputFault {}

// The number, from 0, of the first file of more than `MOST_BYTES` bytes. `first_large` has the same
// result, with a contract about the bytes of the files.
fn large_file(files: &[Vec<u8>]) -> Option<usize>
    ensures { result ≡ position (λ file. is_large file.items) files.now }
{
    files.iter().position(|file| file.len() > MOST_BYTES)
}

// The number of the first file of more than `MOST_BYTES` bytes.
fn first_large(files: &[Vec<u8>]) -> Option<usize>
    ensures first { result ≡ first_large (texts_of files.now) }
    ensures within { IfSome result (λ number. number < length files.now) }
{
    large_file(files)
}

/// Refuses more than `MOST_FILES` files, by `TooManyFiles`, and otherwise the first file of more
/// than `MOST_BYTES` bytes, by `FileTooLarge` with its number.
#[tactic(auto, unfolding(crate::specs::InputFault::refusal_of), using(crate::proofs::InputFaultLemmas::many_refused))]
pub fn check_files(files: &[Vec<u8>]) -> Result<(), InputFault>
    ensures refuses { Refuses result (texts_of files.now) }
    ensures few { IsOk result → length files.now ≤ most_files }
    ensures small { IsOk result → first_large (texts_of files.now) ≡ None }
{
    if files.len() > MOST_FILES {
        return Err(InputFault::TooManyFiles);
    }
    if let Some(number) = first_large(files) {
        return Err(InputFault::FileTooLarge(number as u32));
    }
    Ok(())
}
