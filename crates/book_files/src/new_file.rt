//! Writes a file as a whole: a regular file of its name stays as it is until the new one takes its
//! place.

ghost use Rattle.std.specs.Prelude.{◌≡◌, IfOk};

use crate::book_place::{BookPlace, name_beside};
use std::alloc::{AllocError, Global};
use std::fs::{OpenFile, OpenOptions};
use std::io::Write;
use std::rt::Files;
use std::{fs, io};

/// A text to be written as the file of a place. Writing it takes no more memory.
#[derive(Drop)]
pub struct NewFile<'a> {
    pub place: BookPlace<'a>,
    // The name of a file next to it, which didn't exist when the name was chosen.
    beside: String,
    pub text: Vec<u8>,
}

impl<'a> NewFile<'a> {
    /// Chooses the name of the file next to it. Nothing is opened. The only error is out of memory.
    pub(crate) fn new<T: Files>(
        rt: &T,
        alloc: Global,
        place: BookPlace<'a>,
        text: Vec<u8>,
    ) -> Result<NewFile<'a>, AllocError>
        ensures place { IfOk result (λ file. file.place ≡ place.entry) }
        ensures text { IfOk result (λ file. file.text.items ≡ text.items) }
    {
        let beside = name_beside(rt, alloc, place.name())?;
        Ok(NewFile {
            place,
            beside,
            text,
        })
    }

    /// Writes the text under the file's name. A regular file, or one that doesn't exist yet, is
    /// written next to it and renamed. Anything else, such as a device, a pipe or a link, is opened
    /// and written. If a book would by now destroy what is there, it stays, and the write fails.
    pub(crate) fn write<T: Files>(&self, rt: &T) -> io::Result<()> {
        self.place.check_again(rt)?;
        let name = self.place.name();
        match fs::symlink_metadata(rt, name) {
            Ok(found) => {
                if found.is_file() {
                    self.replace(rt, Some(found.permissions()))
                } else {
                    write_all(&mut fs::create(rt, name)?, &self.text)
                }
            }
            Err(fault) => match fault.kind() {
                io::ErrorKind::NotFound => self.replace(rt, None),
                _ => Err(fault),
            },
        }
    }

    // Writes a file next to the old one, gives it the permissions of the old file, and renames it.
    // An old file that may not be written is not replaced. A file next to it that another program
    // made in the meantime is left alone.
    fn replace<T: Files>(&self, rt: &T, permissions: Option<fs::Permissions>) -> io::Result<()> {
        if permissions.is_some() {
            OpenOptions::new().write(true).open(rt, self.place.name())?;
        }
        let mut beside = fs::File::create_new(rt, self.beside.as_str())?;
        let placed = self.fill_and_rename(rt, &mut beside, permissions);
        if placed.is_err() {
            let _ = fs::remove_file(rt, self.beside.as_str());
        }
        placed
    }

    // Writes the text into the file, sets the permissions, synchronizes the file, and renames it.
    fn fill_and_rename<T: Files>(
        &self,
        rt: &T,
        file: &mut T::File,
        permissions: Option<fs::Permissions>,
    ) -> io::Result<()> {
        write_all(file, &self.text)?;
        if let Some(permissions) = permissions {
            file.set_permissions(permissions)?;
        }
        file.sync_all()?;
        fs::rename(rt, self.beside.as_str(), self.place.name())
    }
}

fn write_all<W: Write>(writer: &mut W, text: &[u8]) -> io::Result<()> {
    writer.write_all(text)?;
    writer.flush()
}
