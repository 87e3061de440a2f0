//! Runs and programs with streams, gates and allocations that fail, and threads that wait.

mod clients;
mod joins;
mod limits;
mod progress;
mod runs;
mod sharing;
mod streams;
mod worked;

use std::alloc::{AllocError, Global};
use std::sync::Wait;
use std::sync::atomic::{AtomicU32, Ordering};
use suite_solver::Gate;

// The words of a command line with spaces between.
fn words_of(alloc: Global, line: &str) -> Result<Vec<&str>, AllocError> {
    line.split(' ').collect(alloc)
}

// Boards with one empty square, two and two.
const ONE: &[u8] = b"\
-OOOOOOXXXXXXXXXXXXXXXXXXXXXXXXXXXXXXXXXXXXXXXXXXXXXXXXXXXXXXXXX X\n\
--OOOOOXXXXXXXXXXXXXXXXXXXXXXXXXXXXXXXXXXXXXXXXXXXXXXXXXXXXXXXXX X\n\
-OOXXOO-XXXXXXXXXXXXXXXXXXXXXXXXXXXXXXXXXXXXXXXXXXXXXXXXXXXXXXXX X\n\
";

// Two boards with two empty squares, and a full one.
const TWO: &[u8] = b"\
-OXXXXX-XXXXXXXOXXXXXXXXXXXXXXXXXXXOXXXXXXXXXXXXXXXXXXXXXXXXXXXX X\n\
-OXXXXX-XXXXXXXOXXXXXXXXXXXXXXXXXXXOXXXXXXXXXXXXXXXXXXXXXXXXXXXX O\n\
XXXXXXXXXXXXXXXXXXXXXXXXXXXXXXXXXXXXXXXXXXXXXXXXXXXXXXXXXXXXXXXX O\n\
";

const BOTH: &[u8] = b"[1]
1 +64 A1 unlisted
2 +64 B1 unlisted
3 +64 A1,H1 unlisted
solved 3 refused 0
[2]
1 +62 H1 unlisted
2 -40 H1 unlisted
3 -64 -- unlisted
solved 3 refused 0
";

// The canonical positions of -OOOOOOX, --OOOOOX and -OOXXOO- above seven rows of black discs, in
// the order of a book.
const BOOK: &[u8] = b"% ffobook 2 winner\n\
XXXXXXXXXXXXXXXXXXXXXXXXXXXXXXXXXXXXXXXXXXXXXXXXXXXXXXXXXOOOOO-- X; G8:+64;\n\
XXXXXXXXXXXXXXXXXXXXXXXXXXXXXXXXXXXXXXXXXXXXXXXXXXXXXXXXXOOOOOO- X; H8:+64;\n\
XXXXXXXXXXXXXXXXXXXXXXXXXXXXXXXXXXXXXXXXXXXXXXXXXXXXXXXX-OOXXOO- X; A8:+64; H8:+64;\n";

// The book of both texts.
const BOTH_BOOK: &[u8] = b"% ffobook 2 winner\n\
OOOOOOOOOOOOOOOOOOOOOOOOOOOOOOOOOOOOOOOOOOOOOOOOOOOOOOOOOOOOOOOO X; --:-64;\n\
-XOOOOO-OOOOOOOXOOOOOOOOOOOOOOOOOOOXOOOOOOOOOOOOOOOOOOOOOOOOOOOO X; H1:-40;\n\
XXXXXXXXXXXXXXXXXXXXXXXXXXXXXXXXXXXXXXXXXXXXXXXXXXXXXXXXXOOOOO-- X; G8:+64;\n\
XXXXXXXXXXXXXXXXXXXXXXXXXXXXXXXXXXXXXXXXXXXXXXXXXXXXXXXXXOOOOOO- X; H8:+64;\n\
XXXXXXXXXXXXXXXXXXXXXXXXXXXXXXXXXXXXXXXXXXXXXXXXXXXXXXXX-OOXXOO- X; A8:+64; H8:+64;\n\
XXXXXXXXXXXXXXXXXXXXXXXXXXXXOXXXXXXXXXXXXXXXXXXXOXXXXXXX-XXXXXO- X; A8:+62;\n";

const TWO_JOBS: &[u8] = b"\
--OOOOOXXXXXXXXXXXXXXXXXXXXXXXXXXXXXXXXXXXXXXXXXXXXXXXXXXXXXXXXX X\n\
-OOXXOO-XXXXXXXXXXXXXXXXXXXXXXXXXXXXXXXXXXXXXXXXXXXXXXXXXXXXXXXX X\n\
";

// Counts the jobs that were begun and ended.
#[derive(Drop)]
struct CountingGate {
    entered: AtomicU32,
    left: AtomicU32,
}

impl CountingGate {
    fn new() -> CountingGate {
        CountingGate {
            entered: AtomicU32::new(0),
            left: AtomicU32::new(0),
        }
    }

    fn counts(&self) -> (u32, u32) {
        (
            self.entered.load(Ordering::SeqCst),
            self.left.load(Ordering::SeqCst),
        )
    }
}

impl Gate for CountingGate {
    fn enter<R: Wait>(&self, _rt: &R, _sender: u32, _number: u32) {
        self.entered.fetch_add(1, Ordering::SeqCst);
    }

    fn leave<R: Wait>(&self, _rt: &R, _sender: u32, _number: u32) {
        self.left.fetch_add(1, Ordering::SeqCst);
    }
}
