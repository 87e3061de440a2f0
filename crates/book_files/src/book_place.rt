//! The place of a file that is to be written. It is tested before anything is solved.

ghost use Rattle.std.specs.Prelude.{◌≡◌, ◌⊎◌, ◌↔◌, IfErr, IfOk, IsErrOf, IsOk, Ok};
ghost use Rattle.std.specs.IoError.{error_kind};
ghost use Rattle.book_files.specs.BookPlace.{IsFree, IsRefusalOf};
ghost use Rattle.book_files.specs.SolveError.{IsPlaceErrorOf, IsSilent, solve_status_of};
ghost use Rattle.book_files.specs.declared.solve_error.SolveError.TheVariants.{Program};
ghost use Rattle.program_parts.specs.declared.program_error.ProgramError.TheVariants.{CannotRead, Memory};

use crate::found::Found;
use crate::solve_error::{SolveError, place_error};
use program_parts::read_error;
use std::alloc::{AllocError, Global};
use std::fs::OpenOptions;
use std::io::ErrorKind;
use std::marker::Model;
use std::os::unix::fs::FileTypeExt;
use std::rt::Files;
use std::{fs, io};

// A name for a file next to the file `name`: the first of `name.0.part` to `name.99.part` that
// doesn't exist, or otherwise `name.part`.
pub(crate) fn name_beside<T: Files>(
    rt: &T,
    alloc: Global,
    name: &str,
) -> Result<String, AllocError> {
    for number in 0..100u32 {
        let beside = format!(in alloc; "{name}.{number}.part")?;
        if let Ok(false) = fs::exists(rt, beside.as_str()) {
            return Ok(beside);
        }
    }
    format!(in alloc; "{name}.part")
}

// Tests that a file can be made next to the file `name`, and removes it.
fn try_beside<T: Files>(rt: &T, alloc: Global, name: &str) -> io::Result<()> {
    let beside = name_beside(rt, alloc, name)?;
    fs::File::create_new(rt, beside.as_str())?;
    fs::remove_file(rt, beside.as_str())
}

// Tests that the file `name` can be opened for writing. Its content is left as it is. If the
// name is that of a link to no file, an empty file is made.
fn try_open<T: Files>(rt: &T, name: &str) -> io::Result<()> {
    OpenOptions::new().write(true).create(true).open(rt, name)?;
    Ok(())
}

// Whether the name leads to a pipe.
fn is_pipe<T: Files>(rt: &T, name: &str) -> bool {
    match fs::metadata(rt, name) {
        Ok(found) => found.file_type().is_fifo(),
        Err(_) => false,
    }
}

// Tests that a book can be written as the file `name`. A pipe is not opened, since that would wait
// for the reader of the pipe, and the reader would see its end.
fn try_place<T: Files>(rt: &T, alloc: Global, name: &str) -> io::Result<()> {
    if name.is_empty() {
        return Err(io::Error::from(ErrorKind::NotFound));
    }
    match fs::symlink_metadata(rt, name) {
        Ok(found) => {
            if is_pipe(rt, name) {
                return Ok(());
            }
            try_open(rt, name)?;
            if found.is_file() {
                try_beside(rt, alloc, name)?;
            }
            Ok(())
        }
        Err(fault) => match fault.kind() {
            ErrorKind::NotFound => try_beside(rt, alloc, name),
            _ => Err(fault),
        },
    }
}

// Refuses a place where a book would destroy what was found.
fn check_found<'a>(found: Found, name: &'a str) -> Result<(), SolveError<'a>>
    ensures free { IsOk result ↔ IsFree found }
    ensures refused { IfErr result (IsRefusalOf found name.entry) }
    ensures named { IfErr result (IsPlaceErrorOf name.entry.now) }
{
    match found {
        Found::NotRegular | Found::Empty | Found::Book => Ok(()),
        Found::Other => Err(SolveError::OverwritesFile(name)),
        Found::List => Err(SolveError::BadPlace(name, ErrorKind::ResourceBusy)),
        Found::BookIn => Err(SolveError::OverwritesBookIn(name)),
    }
}

/// The place of a book that is to be written, and what was found there by a run that reads a book and
/// lists. Only a look at the files makes one.
#[derive(Drop)]
pub struct BookPlace<'a> {
    // The names of the files, as the words have them.
    name: &'a str,
    book_in: &'a Option<String>,
    lists: &'a [String],
    found: Found,
}

impl<'a> Model for BookPlace<'a> {
    ghost use Rattle.book_files.specs.BookPlace.{PlaceView};

    ghost Value = { PlaceView };

    ghost view = { λ p. record {
      name = p.name;
      book_in = p.book_in;
      lists = p.lists;
      found = p.found;
    } };
}

impl<'a> BookPlace<'a> {
    // Looks at what is under this name, for a run that reads this book and these lists. The error is
    // that of a file that can't be read.
    fn look<T: Files>(
        rt: &T,
        name: &'a str,
        book_in: &'a Option<String>,
        lists: &'a [String],
    ) -> io::Result<BookPlace<'a>>
        ensures name { IfOk result (λ place. place.name ≡ name.entry) }
        ensures book_in { IfOk result (λ place. place.book_in ≡ book_in.entry) }
        ensures lists { IfOk result (λ place. place.lists ≡ lists.entry) }
    {
        let found = Found::under(rt, name, book_in, lists)?;
        Ok(BookPlace {
            name,
            book_in,
            lists,
            found,
        })
    }

    /// The name of the file, as the words have it.
    pub(crate) fn name(&self) -> &'a str
        ensures { result ≡ self.now.name }
    {
        self.name
    }

    /// Looks again. `AlreadyExists` if a book would destroy what is there by now.
    pub(crate) fn check_again<T: Files>(&self, rt: &T) -> io::Result<()> {
        let place = BookPlace::look(rt, self.name, self.book_in, self.lists)?;
        match check_found(place.found, place.name) {
            Ok(()) => Ok(()),
            Err(_) => Err(io::Error::from(ErrorKind::AlreadyExists)),
        }
    }
}

// Tests that a book can be written at the place with this name that was looked at, and destroys
// nothing there.
fn check_place<'a, T: Files>(
    rt: &T,
    alloc: Global,
    name: &'a str,
    looked: io::Result<BookPlace<'a>>,
) -> Result<BookPlace<'a>, SolveError<'a>>
    ensures found { IfOk result (λ place. looked.entry ≡ Ok place) }
    ensures free { IfOk result (λ place. IsFree place.found) }
    ensures refused { IfOk looked.entry (λ place. (IsFree place.found → ⊥)
        → IfErr result (IsRefusalOf place.found name.entry)) }
    ensures memory { IfErr looked.entry (λ fault. error_kind fault ≡ ErrorKind.OutOfMemory
        → IsErrOf result (Program Memory)) }
    ensures unread { IfErr looked.entry (λ fault. (error_kind fault ≡ ErrorKind.OutOfMemory → ⊥)
        → IsErrOf result (Program (CannotRead name.entry (error_kind fault)))) }
    ensures named { IfErr result (IsPlaceErrorOf name.entry.now) }
    ensures silent { IfErr result IsSilent }
    ensures status { IfErr result
        (λ error. (solve_status_of error ≡ 1) ⊎ (solve_status_of error ≡ 3)) }
{
    let place = match looked {
        Ok(place) => place,
        Err(fault) => return Err(SolveError::Program(read_error(&fault, name))),
    };
    check_found(place.found, name)?;
    match try_place(rt, alloc, name) {
        Ok(()) => Ok(place),
        Err(fault) => Err(place_error(&fault, name)),
    }
}

/// Looks at what is under this name, for a run that reads this book and these lists, and tests that
/// a book can be written there and destroys nothing. A file of that name, unless it is a pipe, has to
/// open for writing. It must be possible to make a file next to it, if it is a regular file or
/// doesn't exist. The errors are `BadPlace` with the name, even if it is empty or the file is read as
/// a list; `OverwritesBookIn` if the file is the book that is read; `OverwritesFile` if it isn't
/// empty and doesn't begin as a book; `CannotRead` if what is there can't be read; and out of memory.
pub fn find_place<'a, T: Files>(
    rt: &T,
    alloc: Global,
    name: &'a str,
    book_in: &'a Option<String>,
    lists: &'a [String],
) -> Result<BookPlace<'a>, SolveError<'a>>
    ensures name { IfOk result (λ place. place.name ≡ name.entry) }
    ensures book_in { IfOk result (λ place. place.book_in ≡ book_in.entry) }
    ensures lists { IfOk result (λ place. place.lists ≡ lists.entry) }
    ensures free { IfOk result (λ place. IsFree place.found) }
    ensures named { IfErr result (IsPlaceErrorOf name.entry.now) }
    ensures silent { IfErr result IsSilent }
    ensures status { IfErr result
        (λ error. (solve_status_of error ≡ 1) ⊎ (solve_status_of error ≡ 3)) }
{
    let looked = BookPlace::look(rt, name, book_in, lists);
    check_place(rt, alloc, name, looked)
}
