//! Lists that are printed to writers that fail or are interrupted, and the lines of one write.

use bound_table::BoundTable;
use list_printer::{ListFault, write_lists};
use othello_rules::Scoring;
use program_settings::Criteria;
use std::alloc::{AllocError, Global};
use std::io;
use std::io::Write;
use std::sync::Wait;
use std::test::Fail;
use std::thread::Threads;

fn print_text<R: Threads + Wait, W: Write>(
    rt: &R,
    alloc: Global,
    writer: &mut W,
    text: &[u8],
) -> Result<Result<bool, ListFault>, AllocError> {
    let texts = [Vec::from_slice(alloc, text)?];
    let Ok(table) = BoundTable::new(alloc, 16, Scoring::Winner) else {
        return Err(AllocError);
    };
    let criteria = Criteria {
        limit: 20,
        complete: false,
    };
    match write_lists(rt, table, alloc, writer, criteria, 2, &texts) {
        Err(ListFault::Memory) => Err(AllocError),
        ended => Ok(ended),
    }
}

const TWO: &[u8] = b"% two lines\n\
-OOOOOOXXXXXXXXXXXXXXXXXXXXXXXXXXXXXXXXXXXXXXXXXXXXXXXXXXXXXXXXX X; A1:+60;\n";

const TWO_PRINTED: &[u8] = b"% two lines\n\
-OOOOOOXXXXXXXXXXXXXXXXXXXXXXXXXXXXXXXXXXXXXXXXXXXXXXXXXXXXXXXXX X; A1:+64; % A1:+60 is +64\n";

// A writer that takes a byte a call, is interrupted at every other call, fails when no call is
// left, and notes how many bytes it held when it was last flushed.
#[derive(Drop)]
struct SlowWriter {
    held: Vec<u8>,
    calls_left: u32,
    flushed: usize,
}

impl Write for SlowWriter {
    fn write(&mut self, buf: &[u8]) -> io::Result<usize> {
        if self.calls_left == 0 {
            return Err(io::Error::from(io::ErrorKind::StorageFull));
        }
        self.calls_left -= 1;
        if self.calls_left % 2 == 0 {
            return Err(io::Error::from(io::ErrorKind::Interrupted));
        }
        let taken = buf.len().min(1);
        match self.held.extend_from_slice(&buf[..taken]) {
            Ok(()) => Ok(taken),
            Err(_) => Err(io::Error::from(io::ErrorKind::OutOfMemory)),
        }
    }

    fn flush(&mut self) -> io::Result<()> {
        self.flushed = self.held.len();
        Ok(())
    }
}

// The fault of a `SlowWriter` that is full.
const FULL: ListFault = ListFault::CannotWrite(io::ErrorKind::StorageFull);

// The first line of what is printed, which is sent on by itself.
const FIRST: usize = 12;

// Whether exactly what this many calls take is printed, each line sent on as soon as it is whole,
// and the fault returned.
fn stops_so<R: Threads + Wait>(rt: &R, alloc: Global, calls_left: u32) -> Result<bool, AllocError> {
    let mut writer = SlowWriter {
        held: Vec::with_capacity(alloc, TWO_PRINTED.len())?,
        calls_left,
        flushed: 0,
    };
    let ended = print_text(rt, alloc, &mut writer, TWO)?;
    let taken = TWO_PRINTED.len().min(calls_left as usize / 2);
    let (sent, wanted) = if taken == TWO_PRINTED.len() {
        (taken, Ok(false))
    } else if taken >= FIRST {
        (FIRST, Err(FULL))
    } else {
        (0, Err(FULL))
    };
    Ok(
        ended == wanted
            && writer.held.len() == taken
            && TWO_PRINTED.starts_with(&writer.held)
            && writer.flushed == sent,
    )
}

// The first line takes 24 calls, and both take 208.
const CALLS: [u32; 14] = [0, 1, 2, 3, 22, 23, 24, 25, 100, 206, 207, 208, 209, 1_000];

#[test]
fn prints_a_front_before_a_fault(rt: HostRuntime) -> Result<(), Fail> {
    for calls_left in CALLS {
        assert!(rt; stops_so(&rt, rt.alloc(), calls_left)?);
    }
    Ok(())
}

// A writer that takes nothing.
#[derive(Drop)]
struct FullWriter;

impl Write for FullWriter {
    fn write(&mut self, _buf: &[u8]) -> io::Result<usize> {
        Ok(0)
    }

    fn flush(&mut self) -> io::Result<()> {
        Ok(())
    }
}

#[test]
fn a_full_writer_is_reported(rt: HostRuntime) -> Result<(), Fail> {
    let ended = print_text(&rt, rt.alloc(), &mut FullWriter, b"%\n")?;
    assert!(rt; ended == Err(ListFault::CannotWrite(io::ErrorKind::WriteZero)));
    Ok(())
}

// A writer that notes the most lines that it is given at once.
#[derive(Drop)]
struct LineCounter {
    most_lines: usize,
}

impl Write for LineCounter {
    fn write(&mut self, buf: &[u8]) -> io::Result<usize> {
        let lines = buf.iter().filter(|byte| **byte == b'\n').count();
        self.most_lines = self.most_lines.max(lines);
        Ok(buf.len())
    }

    fn flush(&mut self) -> io::Result<()> {
        Ok(())
    }
}

// A finished game with eight empty squares: threads score such lines, several lines each.
const EIGHT_EMPTY: &[u8] = b"--------XXXXXXXXXXXXXXXXXXXXXXXXXXXXXXXXXXXXXXXXXXXXXXXXXXXXXXXX X\n";

// The lines that a thread scores are written in one write.
#[test]
fn a_thread_scores_at_most_eight_lines(rt: HostRuntime) -> Result<(), Fail> {
    let mut text = Vec::new(rt.alloc());
    for _ in 0..90 {
        text.extend_from_slice(EIGHT_EMPTY)?;
    }
    let mut counter = LineCounter { most_lines: 0 };
    assert!(rt; print_text(&rt, rt.alloc(), &mut counter, &text)? == Ok(true));
    assert!(rt; 1 < counter.most_lines && counter.most_lines <= 8);
    Ok(())
}
