//! Reads the files of a program, or standard input.

ghost use Rattle.std.specs.Prelude.{◌≡◌, ◌+◌, ◌≤◌, [], ◌∷◌, IfOk, IfErr, IfSome, IsErrOf, Ok, length, min, take, vec_len};
ghost use Rattle.std.specs.IoError.{error_kind};
ghost use Rattle.program_settings.specs.Limits.{most_bytes, most_files};
ghost use Rattle.program_parts.specs.Inputs.{AreFrontsOf, names_of};
ghost use Rattle.program_parts.specs.ProgramError.{IsErrorOfOne, IsInputError, IsReadError, IsReadErrorOf};
ghost use Rattle.program_parts.specs.declared.program_error.ProgramError.TheVariants.{CannotRead, Memory};
ghost use Rattle.obf_text.specs.LineText.{texts_of};

use crate::program_error::{ProgramError, memory_or, read_error};
use program_settings::{MOST_BYTES, MOST_FILES};
use std::alloc::Global;
use std::io::{ErrorKind, Read};
use std::rt::Files;
use std::{fs, io};

// Reads the first bytes of a reader: one more than a file may have, or all bytes if there are
// fewer. That one byte shows that a file is too large. The error is that of the reader, or out of
// memory.
fn read_front<R: Read>(alloc: Global, reader: &mut R) -> io::Result<Vec<u8>>
    ensures most { IfOk result (λ bytes. vec_len bytes ≤ most_bytes + 1) }
    ensures front { IfOk result (λ bytes. IfSome (R.remaining reader.old)
        (λ all. bytes.items ≡ take (most_bytes + 1) all)) }
{
    let mut bytes = Vec::new(alloc);
    reader.take(MOST_BYTES as u64 + 1).read_to_end(&mut bytes)?;
    // The bytes are cut once more, since no contract limits how many a reader returns whose bytes
    // aren't known.
    bytes.truncate(MOST_BYTES + 1);
    Ok(bytes)
}

// The text that was read of the file of this name, or the error for the fault.
fn text_read<'a>(read: io::Result<Vec<u8>>, name: &'a str) -> Result<Vec<u8>, ProgramError<'a>>
    ensures text { IfOk read (λ text. result ≡ Ok text) }
    ensures memory { IfErr read (λ fault. error_kind fault ≡ ErrorKind.OutOfMemory
        → IsErrOf result Memory) }
    ensures fault { IfErr read (λ fault. (error_kind fault ≡ ErrorKind.OutOfMemory → ⊥)
        → IsErrOf result (CannotRead name.entry (error_kind fault))) }
    ensures named { IfErr result (IsReadErrorOf name.entry.now) }
{
    match read {
        Ok(text) => Ok(text),
        Err(fault) => Err(read_error(&fault, name)),
    }
}

// Reads standard input as the one file, up to one byte more than a file may have.
fn read_input<R: Read>(alloc: Global, input: &mut R) -> Result<Vec<Vec<u8>>, ProgramError<'static>>
    ensures ok { IfOk result (λ files. IfSome
        (R.remaining input.old) (λ all. texts_of files.items ≡ take (most_bytes + 1) all ∷ [])) }
    ensures named { IfErr result (IsInputError []) }
{
    let text = match read_front(alloc, input) {
        Ok(text) => text,
        Err(fault) => return Err(memory_or(&fault, ProgramError::CannotReadInput)),
    };
    let mut files = Vec::new(alloc);
    files.push(text)?;
    Ok(files)
}

// Reads the file of this name, up to one byte more than a file may have.
fn read_file<T: Files>(rt: &T, alloc: Global, name: &str) -> io::Result<Vec<u8>> {
    let mut file = fs::open(rt, name)?;
    read_front(alloc, &mut file)
}

// Reads the files of these names, in their order: at most one more than a run may have, so that the
// run refuses them. Any file after those is opened, but not read.
fn read_named<'a, T: Files>(
    rt: &T,
    alloc: Global,
    names: &'a [String],
) -> Result<Vec<Vec<u8>>, ProgramError<'a>>
    ensures ok { IfOk result
        (λ files. length files.items ≡ min (most_files + 1) (length names.now)) }
    ensures err { IfErr result IsReadError }
    ensures named { IfErr result (IsErrorOfOne (names_of names.now)) }
{
    let mut files = Vec::new(alloc);
    for name in names {
        let name = name.as_str();
        if files.len() <= MOST_FILES {
            files.push(text_read(read_file(rt, alloc, name), name)?)?;
        } else if let Err(fault) = fs::open(rt, name) {
            return Err(read_error(&fault, name));
        }
    }
    Ok(files)
}

/// Reads the files of these names, in their order, or standard input if there is no name. Of each
/// it reads at most one byte more than a file may have, and it reads at most one file more than a
/// run may have: a text that is cut off, or files that are left out, are refused by `check_files`.
pub fn read_files<'a, T: Files, R: Read>(
    rt: &T,
    alloc: Global,
    names: &'a [String],
    input: &mut R,
) -> Result<Vec<Vec<u8>>, ProgramError<'a>>
    ensures ok { IfOk result
        (λ files. AreFrontsOf (names_of names.now) (R.remaining input.old) (texts_of files.items)) }
    ensures err { IfErr result IsReadError }
    ensures named { IfErr result (IsInputError (names_of names.now)) }
{
    if names.is_empty() {
        return read_input(alloc, input);
    }
    read_named(rt, alloc, names)
}
