//! What is found under the name of a book that is to be written. No contract speaks of files: this
//! file looks at them, and `BookPlace` keeps for which names it looked.

ghost use Rattle.std.specs.Prelude.{◌≡◌, ◌⊎◌, ◌↔◌, ◌≤◌, ℕ, List, IfOk, IfSome, length, take};
ghost use Rattle.obf_text.specs.LineText.{lines_of};
ghost use Rattle.book_files.specs.BookPlace.{GivesWay, IsFree};

use obf_text::split_lines;
use solved_book::header_scoring;
use std::fs::Metadata;
use std::io::{ErrorKind, Read};
use std::os::unix::fs::MetadataExt;
use std::rt::Files;
use std::{fs, io};

// How many bytes of a file are read to find a header: `% ffobook 2 winner` and CR LF are 20 bytes. A
// first line that is cut is longer than a header.
const HEADER_ROOM: usize = 20;

/// What is found under the name of a book that is to be written.
#[derive(Clone, Copy, PartialEq, Eq, Debug)]
pub enum Found {
    /// Not a regular file: nothing, or a device, a pipe or a folder.
    NotRegular,
    /// An empty regular file.
    Empty,
    /// A regular file that begins with the header of a book.
    Book,
    /// Any other regular file.
    Other,
    /// A regular file that is read as a list.
    List,
    /// The regular file of the book that is read.
    BookIn,
}

// What a regular file with this text is.
fn found_text(text: &[u8]) -> Found
    ensures free { IsFree result ↔ GivesWay (lines_of text.now) }
    ensures other { IsFree result ⊎ (result ≡ Found.Other) }
{
    match split_lines(text).next() {
        Some(line) => {
            if header_scoring(line).is_some() {
                Found::Book
            } else {
                Found::Other
            }
        }
        None => Found::Empty,
    }
}

// What a regular file is that begins with these bytes: as many as are read to find a header, or all
// if there are fewer.
fn found_in(front: &[u8]) -> Found
    ensures free { (text : List ℕ) → front.now ≡ take HEADER_ROOM text
        → IsFree result ↔ GivesWay (lines_of text) }
    ensures other { IsFree result ⊎ (result ≡ Found.Other) }
{
    found_text(front)
}

// Reads the first bytes of a reader: as many as fit, or all if there are fewer. Returns how many.
fn read_start<R: Read>(reader: &mut R, front: &mut [u8]) -> io::Result<usize>
    ensures most { IfOk result (λ count. count ≤ length front.new) }
    ensures room { length front.new ≡ length front.old }
    ensures bytes { IfOk result (λ count. IfSome (R.remaining reader.old)
        (λ text. take count front.new ≡ take (length front.new) text)) }
{
    let mut at = 0;
    for _ in 0..u64::MAX {
        if at >= front.len() {
            return Ok(at);
        }
        let count = reader.read(&mut front[at..])?;
        if count == 0 {
            return Ok(at);
        }
        at += count;
    }
    Err(io::Error::from(ErrorKind::Interrupted))
}

// The kind of a regular file whose bytes this reader gives: `Empty`, `Book` or `Other`.
fn found_from<R: Read>(reader: &mut R) -> io::Result<Found>
    ensures free { IfOk result (λ found. IfSome (R.remaining reader.old)
        (λ text. IsFree found ↔ GivesWay (lines_of text))) }
    ensures other { IfOk result (λ found. IsFree found ⊎ (found ≡ Found.Other)) }
{
    let mut front = [0u8; HEADER_ROOM];
    let count = read_start(reader, &mut front)?;
    Ok(found_in(&front[..count]))
}

// Whether the name leads to this regular file.
fn leads_to<T: Files>(rt: &T, name: &str, file: &Metadata) -> bool {
    match fs::metadata(rt, name) {
        Ok(found) => found.is_file() && found.dev() == file.dev() && found.ino() == file.ino(),
        Err(_) => false,
    }
}

impl Found {
    /// What is found under this name, where the program reads this book and these lists. The error
    /// is that of a file that can't be read.
    pub(crate) fn under<T: Files>(
        rt: &T,
        name: &str,
        book_in: &Option<String>,
        lists: &[String],
    ) -> io::Result<Found> {
        let Ok(file) = fs::metadata(rt, name) else {
            return Ok(Found::NotRegular);
        };
        if !file.is_file() {
            return Ok(Found::NotRegular);
        }
        for list in lists {
            if leads_to(rt, list.as_str(), &file) {
                return Ok(Found::List);
            }
        }
        if let Some(read) = book_in {
            if leads_to(rt, read.as_str(), &file) {
                return Ok(Found::BookIn);
            }
        }
        let mut opened = fs::open(rt, name)?;
        found_from(&mut opened)
    }
}
