//! Texts of books, and writers that fail at one of their writes.

use super::{
    BLACK_BOARD, CORNER_LEFT_OVER, EQUAL_CORNERS, LAST_CORNER, Turn, UNEQUAL_CORNERS, book_of,
};
use othello_rules::{Answer, Best, Scoring, Side};
use solved_book::Book;
use std::alloc::{AllocError, Global};
use std::io;
use std::io::Write;
use std::test::Fail;
use suite_solver::{Check, Refusal, ReportRow, RowResult, write_report};

const THREE: &[Turn] = &[
    (LAST_CORNER, Side::Black),
    (CORNER_LEFT_OVER, Side::Black),
    (EQUAL_CORNERS, Side::Black),
];

// The positions of a book in the order in which they are added, its scoring, and its text.
const BOOKS: &[(&[Turn], Scoring, &[u8])] = &[
    (&[], Scoring::Sign, b"% ffobook 2 sign\n"),
    (
        THREE,
        Scoring::Winner,
        b"% ffobook 2 winner\n\
XXXXXXXXXXXXXXXXXXXXXXXXXXXXXXXXXXXXXXXXXXXXXXXXXXXXXXXXXOOOOO-- X; G8:+64;\n\
XXXXXXXXXXXXXXXXXXXXXXXXXXXXXXXXXXXXXXXXXXXXXXXXXXXXXXXXXOOOOOO- X; H8:+64;\n\
XXXXXXXXXXXXXXXXXXXXXXXXXXXXXXXXXXXXXXXXXXXXXXXXXXXXXXXX-OOXXOO- X; A8:+64; H8:+64;\n",
    ),
    (
        THREE,
        Scoring::Discs,
        b"% ffobook 2 discs\n\
XXXXXXXXXXXXXXXXXXXXXXXXXXXXXXXXXXXXXXXXXXXXXXXXXXXXXXXXXOOOOO-- X; G8:+63;\n\
XXXXXXXXXXXXXXXXXXXXXXXXXXXXXXXXXXXXXXXXXXXXXXXXXXXXXXXXXOOOOOO- X; H8:+64;\n\
XXXXXXXXXXXXXXXXXXXXXXXXXXXXXXXXXXXXXXXXXXXXXXXXXXXXXXXX-OOXXOO- X; A8:+64; H8:+64;\n",
    ),
    (
        &[(UNEQUAL_CORNERS, Side::Black)],
        Scoring::Sign,
        b"% ffobook 2 sign\n\
XXXXXXXXXXXXXXXXXXXXXXXXXXXXOXXXXXXXXXXXXXXXXXXXOXXXXXXX-XXXXXO- X; A8:+01; H8:+01;\n",
    ),
    (
        &[(LAST_CORNER, Side::White)],
        Scoring::Winner,
        b"% ffobook 2 winner\n\
OXXXXXX-OOOOOOOOOOOOOOOOOOOOOOOOOOOOOOOOOOOOOOOOOOOOOOOOOOOOOOOO X; PS:-64;\n",
    ),
    (
        &[(BLACK_BOARD, Side::White)],
        Scoring::Winner,
        b"% ffobook 2 winner\n\
OOOOOOOOOOOOOOOOOOOOOOOOOOOOOOOOOOOOOOOOOOOOOOOOOOOOOOOOOOOOOOOO X; --:-64;\n",
    ),
];

// A writer whose call fails when none is left.
#[derive(Drop)]
struct FailingWriter {
    held: Vec<u8>,
    calls_left: u32,
}

impl Write for FailingWriter {
    fn write(&mut self, buf: &[u8]) -> io::Result<usize> {
        if self.calls_left == 0 {
            return Err(io::Error::from(io::ErrorKind::StorageFull));
        }
        self.calls_left -= 1;
        match self.held.extend_from_slice(buf) {
            Ok(()) => Ok(buf.len()),
            Err(_) => Err(io::Error::from(io::ErrorKind::OutOfMemory)),
        }
    }

    fn flush(&mut self) -> io::Result<()> {
        Ok(())
    }
}

fn failing_writer(alloc: Global, calls_left: u32) -> FailingWriter {
    FailingWriter {
        held: Vec::new(alloc),
        calls_left,
    }
}

// Whether a writer that was to hold this text has all of it, or failed with a part of it.
fn is_so_far(
    ended: io::Result<()>,
    writer: &FailingWriter,
    whole: &[u8],
) -> Result<bool, AllocError> {
    match ended {
        Ok(()) => Ok(writer.held.as_slice() == whole),
        Err(error) if error.kind() == io::ErrorKind::OutOfMemory => Err(AllocError),
        Err(error) => Ok(
            error.kind() == io::ErrorKind::StorageFull
                && writer.held.len() < whole.len()
                && whole.starts_with(&writer.held),
        ),
    }
}

// Whether the book is written as this text into a writer that fails at a call, and whether it failed.
fn is_book_so_far(
    alloc: Global,
    book: &Book,
    whole: &[u8],
    calls_left: u32,
) -> Result<(bool, bool), AllocError> {
    let mut writer = failing_writer(alloc, calls_left);
    let ended = book.write(&mut writer);
    let has_failed = ended.is_err();
    Ok((is_so_far(ended, &writer, whole)?, has_failed))
}

// The most calls that are made to write a text of these.
const MOST_CALLS: u32 = 1_000;

// A book can be written again after a fault at each call.
#[test]
fn books_have_their_texts(rt: HostRuntime) -> Result<(), Fail> {
    for (turns, scoring, whole) in BOOKS {
        let book = book_of(&rt, rt.alloc(), *scoring, turns);
        assert!(rt; book.len() == turns.len() && book.scoring() == *scoring);
        let mut fails = true;
        for calls_left in 0..MOST_CALLS {
            if fails {
                let (is_right, has_failed) = is_book_so_far(rt.alloc(), &book, whole, calls_left)?;
                assert!(rt; is_right);
                fails = has_failed;
            }
        }
        assert!(rt; !fails);
    }
    Ok(())
}

const REPORT: &[u8] = b"[64]
1 refused: board has 63 of 64 squares
3 refused: bad square at column 5
4 refused: bad side at column 66
7 refused: 21 empties, limit 20
8 +64 A1,H1 agree
9 -64 PS differ
10 +00 -- unlisted
solved 3 refused 4
";

fn refused(line: u32, refusal: Refusal) -> ReportRow {
    ReportRow {
        line,
        result: RowResult::Refused(refusal),
    }
}

fn solved(line: u32, answer: Answer, check: Check) -> ReportRow {
    ReportRow {
        line,
        result: RowResult::Solved(answer, check),
    }
}

const BOTH_CORNERS: Answer = Answer {
    score: 64,
    best: Best::Moves(0x81),
};

const PASS: Answer = Answer {
    score: -64,
    best: Best::Pass,
};

const OVER: Answer = Answer {
    score: 0,
    best: Best::Over,
};

#[test]
fn reports_fail_at_each_write(rt: HostRuntime) -> Result<(), Fail> {
    let rows = [
        refused(1, Refusal::Short(63)),
        refused(3, Refusal::BadCell(5)),
        refused(4, Refusal::BadSide(66)),
        refused(7, Refusal::Empties(21, 20)),
        solved(8, BOTH_CORNERS, Check::Agree),
        solved(9, PASS, Check::Differ),
        solved(10, OVER, Check::Unlisted),
    ];
    let mut fails = true;
    for calls_left in 0..MOST_CALLS {
        if fails {
            let mut writer = failing_writer(rt.alloc(), calls_left);
            let ended = write_report(&mut writer, 63, &rows);
            fails = ended.is_err();
            assert!(rt; is_so_far(ended, &writer, REPORT)?);
        }
    }
    assert!(rt; !fails);
    Ok(())
}
