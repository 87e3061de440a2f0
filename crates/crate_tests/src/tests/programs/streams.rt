//! Programs whose standard input fails, at once or after a few bytes, or whose standard output takes
//! all bytes but can't pass them on.

ghost use Rattle.std.specs.Prelude.{Some};

use super::{TWO, words_of};
use ffoscores_program::list_program;
use program_parts::ErrorStream;
use std::alloc::{AllocError, Global};
use std::fmt::Display;
use std::io::{Read, Write};
use std::marker::Sync;
use std::process::Abort;
use std::rt::{Clock, Files};
use std::sync::Wait;
use std::test::Fail;
use std::thread::Threads;
use std::{fs, io};
use suite_solver::program;

// A standard error that keeps what is written to it. Contracts know its bytes, since it takes every
// text; that of a process may fail. If memory is refused, the test ends.
#[derive(Drop)]
struct Shown<'a, T: Abort> {
    rt: &'a T,
    bytes: Vec<u8>,
}

impl<T: Abort> Write for Shown<'_, T> {
    ghost contents = { λ s. Some s.bytes.items };

    fn write(&mut self, buf: &[u8]) -> io::Result<usize> {
        self.bytes.write(buf)
    }

    fn flush(&mut self) -> io::Result<()> {
        Ok(())
    }
}

impl<T: Abort + Sync> ErrorStream for Shown<'_, T> {
    fn show<D: Display + Drop>(&mut self, text: D) {
        assert!(self.rt; self.write_fmt(text).is_ok());
    }
}

// Whether the program that the line begins with ends with 3 and prints this on standard error.
fn fails_with<T: Files + Clock + Threads + Wait + Sync + Abort, R: Read, W: Write>(
    rt: &T,
    alloc: Global,
    line: &str,
    input: &mut R,
    output: &mut W,
    error: &str,
) -> Result<bool, AllocError> {
    let words = words_of(alloc, line)?;
    let mut errors = Shown {
        rt,
        bytes: Vec::new(alloc),
    };
    let status = if line.starts_with("ffosolve") {
        program(rt, alloc, &words, input, output, &mut errors)
    } else {
        list_program(rt, alloc, &words, input, output, &mut errors)
    };
    Ok(status == 3 && errors.bytes.as_slice() == error.as_bytes())
}

// A reader that returns one byte a call, and fails once no call is left.
#[derive(Drop)]
struct FailingReader<'a> {
    bytes: &'a [u8],
    calls_left: u32,
}

impl Read for FailingReader<'_> {
    fn read(&mut self, buf: &mut [u8]) -> io::Result<usize> {
        if self.calls_left == 0 {
            return Err(io::Error::from(io::ErrorKind::BrokenPipe));
        }
        self.calls_left -= 1;
        if buf.is_empty() || self.bytes.is_empty() {
            return Ok(0);
        }
        buf[0] = self.bytes[0];
        self.bytes = &self.bytes[1..];
        Ok(1)
    }
}

const UNREAD: &[(&str, &str)] = &[
    ("ffosolve", "ffosolve: cannot read standard input\n"),
    ("ffoscores", "ffoscores: cannot read standard input\n"),
];

#[test]
fn failing_input_is_reported(rt: HostRuntime) -> Result<(), Fail> {
    for (line, error) in UNREAD {
        for calls_left in 0..8 {
            let mut input = FailingReader {
                bytes: TWO,
                calls_left,
            };
            let mut output = Vec::new(rt.alloc());
            assert!(rt; fails_with(&rt, rt.alloc(), line, &mut input, &mut output, error)?);
            assert!(rt; output.is_empty());
        }
    }
    Ok(())
}

// A writer that accepts all bytes; its flush fails.
#[derive(Drop)]
struct HoldingWriter {}

impl Write for HoldingWriter {
    fn write(&mut self, buf: &[u8]) -> io::Result<usize> {
        Ok(buf.len())
    }

    fn flush(&mut self) -> io::Result<()> {
        Err(io::Error::from(io::ErrorKind::StorageFull))
    }
}

const UNWRITTEN: &[(&str, &str)] = &[
    (
        "ffosolve --book-out unwritten.book",
        "ffosolve: cannot write standard output\n",
    ),
    (
        "ffosolve --help",
        "ffosolve: cannot write standard output\n",
    ),
    ("ffoscores", "ffoscores: cannot write standard output\n"),
    (
        "ffoscores --help",
        "ffoscores: cannot write standard output\n",
    ),
];

// The error is reported, and no book is written.
#[test]
fn unflushed_output_is_reported(rt: HostRuntime) -> Result<(), Fail> {
    for (line, error) in UNWRITTEN {
        let (mut input, mut output) = (TWO, HoldingWriter {});
        assert!(rt; fails_with(&rt, rt.alloc(), line, &mut input, &mut output, error)?);
    }
    assert!(rt; !fs::exists(&rt, "unwritten.book")?);
    Ok(())
}
