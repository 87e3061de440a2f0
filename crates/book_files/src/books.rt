//! The book that the program reads, and the book that it writes.

ghost use Rattle.std.specs.Prelude.{◌≡◌, ◌⊎◌, ◌↔◌, ℕ, List, None, Some, Ok, IfOk, IfErr, IfSome, IsSome, option_map, string_bytes};
ghost use Rattle.solved_book.specs.Books.{book_text};
ghost use Rattle.solved_book.specs.Order.{AreBookPositions};
ghost use Rattle.solved_book.specs.Claims.{GivesAdvice, claims_of};
ghost use Rattle.book_files.specs.BookLines.{IsFrontOf, IsLineOrFault, ReadsPart};
ghost use Rattle.book_files.specs.BookPlace.{IsBookTextOf, IsFree};
ghost use Rattle.book_files.specs.SolveError.{IsBookError, IsBookErrorOf, IsSilent, solve_status_of};
ghost use Rattle.book_files.specs.declared.solve_error.SolveError.TheVariants.{Program};
ghost use Rattle.program_parts.specs.declared.program_error.ProgramError.TheVariants.{CannotWrite};

use crate::book_place::BookPlace;
use crate::new_file::NewFile;
use crate::solve_error::SolveError;
use obf_text::{LineFault, fault_of_front, line_len};
use program_parts::{ProgramError, read_error};
use solved_book::{Book, BookFault, Claims};
use std::alloc::{AllocError, Global};
use std::io::{BufRead, BufReader, ErrorKind, Read};
use std::os::unix::fs::FileTypeExt;
use std::rt::Files;
use std::{fs, io};
use suite_runs::SolvedFiles;

// How many bytes of a longer line are read before it is judged by them. A header has fewer.
const FRONT: usize = 65_536;

// Appends the bytes of a line that the reader shows, up to the line's end. Returns whether the line
// is whole: its end was read, or no byte is left.
fn read_some<R: BufRead>(reader: &mut R, line: &mut Vec<u8>) -> io::Result<bool>
    ensures { IfOk result (ReadsPart (R.remaining reader.old) (R.remaining reader.new)
        line.old.items line.new.items) }
{
    let shown = match reader.fill_buf() {
        Ok(shown) => shown,
        Err(error) => {
            return match error.kind() {
                ErrorKind::Interrupted => Ok(false),
                _ => Err(error),
            };
        }
    };
    let end = line_len(shown);
    line.extend_from_slice(&shown[..end])?;
    let whole = end == 0 || shown[end - 1] == b'\n';
    reader.consume(end);
    Ok(whole)
}

// Reads a line with its end, or at least the first `FRONT` bytes of a longer one; no byte if no line
// is left. Returns whether the line is whole.
fn read_front<R: BufRead>(reader: &mut R, line: &mut Vec<u8>) -> io::Result<bool>
    ensures { IfOk result (λ whole. IfSome (R.remaining reader.old)
        (λ text. IsFrontOf text whole line.new.items (R.remaining reader.new))) }
{
    line.clear();
    for _ in 0..u64::MAX {
        if read_some(reader, line)? {
            return Ok(true);
        }
        if line.len() >= FRONT {
            return Ok(false);
        }
    }
    Err(io::Error::from(ErrorKind::Interrupted))
}

// Reads the rest of a line whose front was read. If the front is faulty, whatever follows it, its
// fault is returned and nothing is read, since the line may have no end. The last byte of the front
// is not judged: it may be the CR of a line's end.
fn read_rest<R: BufRead>(
    alloc: Global,
    reader: &mut R,
    line: &mut Vec<u8>,
    whole: bool,
) -> io::Result<Option<LineFault>>
    ensures { IfOk result (λ fault. (text : List ℕ)
        → IsFrontOf text whole line.old.items (R.remaining reader.old)
        → IsLineOrFault text fault line.new.items (R.remaining reader.new)) }
{
    if whole {
        return Ok(None);
    }
    if let Some((_, front)) = line.split_last() {
        if let Some(fault) = fault_of_front(alloc, front) {
            return Ok(Some(fault));
        }
    }
    reader.read_until(b'\n', line)?;
    Ok(None)
}

// The claims of the book in a reader, or the first fault of the book, whose line is the last one
// that is read. The error is that of the reader.
fn claims_in<R: BufRead>(alloc: Global, reader: &mut R) -> io::Result<Result<Claims, BookFault>>
    ensures { IfOk result (λ read. IfSome (R.remaining reader.old)
        (λ text. GivesAdvice read (claims_of text))) }
{
    let mut line = Vec::new(alloc);
    let mut whole = read_front(reader, &mut line)?;
    let Some(mut claims) = Claims::under_header(alloc, &line) else {
        return Ok(Err(BookFault::Header));
    };
    for number in 1..isize::MAX as usize {
        if let Some(fault) = read_rest(alloc, reader, &mut line, whole)? {
            return Ok(Err(BookFault::Line(number, fault)));
        }
        if line.is_empty() {
            return Ok(Ok(claims));
        }
        claims = match claims.read_more(alloc, number, &line) {
            Ok(claims) => claims,
            Err(fault) => return Ok(Err(fault)),
        };
        whole = read_front(reader, &mut line)?;
    }
    Ok(Err(BookFault::Memory))
}

// Opens the file of a book, which has to be a regular file or a pipe; None if it is a device, which
// may have no end.
fn open_book<T: Files>(rt: &T, name: &str) -> io::Result<Option<T::File>> {
    let found = fs::metadata(rt, name)?;
    if found.is_dir() {
        return Err(io::Error::from(ErrorKind::IsADirectory));
    }
    if !found.is_file() && !found.file_type().is_fifo() {
        return Ok(None);
    }
    Ok(Some(fs::open(rt, name)?))
}

// The claims of the book in a file, or the fault of the book. The error is that of a file that can't
// be read.
fn claims_of_file<F: Read + Drop>(alloc: Global, file: F) -> io::Result<Result<Claims, BookFault>>
    ensures { IfOk result (λ read. IfSome (F.remaining file)
        (λ text. GivesAdvice read (claims_of text))) }
{
    let mut reader = BufReader::new(alloc, file)?;
    claims_in(alloc, &mut reader)
}

// The claims of the book in the file of this name.
fn claims_under<'a, T: Files>(
    rt: &T,
    alloc: Global,
    name: &'a str,
) -> Result<Claims, SolveError<'a>>
    ensures named { IfErr result (IsBookError name.entry) }
    ensures named_text { IfErr result (IsBookErrorOf (Some name.entry.now)) }
    ensures silent { IfErr result IsSilent }
    ensures status { IfErr result
        (λ error. (solve_status_of error ≡ 1) ⊎ (solve_status_of error ≡ 3)) }
{
    let file = match open_book(rt, name) {
        Ok(Some(opened)) => opened,
        Ok(None) => return Err(SolveError::BookOnDevice(name)),
        Err(fault) => return Err(SolveError::Program(read_error(&fault, name))),
    };
    match claims_of_file(alloc, file) {
        Ok(read) => Ok(read?),
        Err(fault) => Err(SolveError::Program(read_error(&fault, name))),
    }
}

/// Reads the claims of the book in the file of this name; None if there is no name. The errors
/// are a file that can't be read, or is neither a regular file nor a pipe; a text that is not a
/// book; and out of memory.
pub fn read_claims<'a, T: Files>(
    rt: &T,
    alloc: Global,
    name: &'a Option<String>,
) -> Result<Option<Claims>, SolveError<'a>>
    ensures named { IfErr result (IsBookErrorOf (option_map string_bytes name.now)) }
    ensures none { name.now ≡ None → result ≡ Ok None }
    ensures some { IfOk result (λ claims. claims ≡ None → name.now ≡ None) }
    ensures silent { IfErr result IsSilent }
    ensures status { IfErr result
        (λ error. (solve_status_of error ≡ 1) ⊎ (solve_status_of error ≡ 3)) }
{
    let Some(name) = name else {
        return Ok(None);
    };
    Ok(Some(claims_under(rt, alloc, name.as_str())?))
}

// Makes the text of the book.
fn text_of(alloc: Global, book: &Book) -> Result<Vec<u8>, AllocError>
    ensures text { IfOk result (λ text. text.items ≡ book_text book.now.scoring book.now.positions) }
    ensures positions { IfOk result (λ text. AreBookPositions book.now.positions) }
{
    let mut text = Vec::new(alloc);
    match book.write(&mut text) {
        Ok(()) => Ok(text),
        Err(_) => Err(AllocError),
    }
}

/// Makes the file that is to be written at this place, with the text of the book of these solved
/// files; None if there is no place. Nothing is opened. The only error is out of memory.
pub fn ready_book<'a, T: Files>(
    rt: &T,
    alloc: Global,
    place: Option<BookPlace<'a>>,
    solved: &SolvedFiles,
) -> Result<Option<NewFile<'a>>, AllocError>
    requires { IfSome place (λ p. IsFree p.found) }
    ensures placed { IfOk result (λ file. file ≡ None ↔ place.entry ≡ None) }
    ensures place { IfOk result (λ file. IfSome file
        (λ file. IfSome place.entry (λ p. file.place ≡ p))) }
    ensures text { IfOk result (λ file. IfSome file
        (λ file. IsBookTextOf solved.now file.text.items)) }
{
    let Some(place) = place else {
        return Ok(None);
    };
    let book = solved.book(alloc)?;
    let text = text_of(alloc, &book)?;
    let file = NewFile::new(rt, alloc, place, text)?;
    Ok(Some(file))
}

/// Writes the book, if one is to be written. The error is `CannotWrite` with the book's name.
pub fn write_book<'a, T: Files>(rt: &T, book: &Option<NewFile<'a>>) -> Result<(), SolveError<'a>>
    ensures named { IfErr result (λ error. IfSome book.now
        (λ file. (kind : ErrorKind) × (error ≡ Program (CannotWrite file.place.name kind)))) }
    ensures none { IfErr result (λ error. IsSome book.now) }
    ensures late { IfErr result (λ error. IsSilent error → ⊥) }
    ensures status { IfErr result (λ error. solve_status_of error ≡ 3) }
{
    let Some(file) = book else {
        return Ok(());
    };
    match file.write(rt) {
        Ok(()) => Ok(()),
        Err(fault) => {
            let error = ProgramError::CannotWrite(file.place.name(), fault.kind());
            Err(SolveError::Program(error))
        }
    }
}
