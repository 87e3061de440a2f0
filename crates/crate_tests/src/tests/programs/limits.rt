//! Limits of settings and of a run's files.

ghost use Rattle.std.specs.Prelude.{◌<◌, ◌^◌};

use super::super::published::{MOST_BYTES, MOST_EMPTIES, MOST_ENTRIES, MOST_FILES, MOST_WORKERS};
use super::runs::{settings_of, text_of};
use othello_rules::Scoring;
use std::alloc::{AllocError, Global};
use std::sync::Wait;
use std::sync::atomic::{AtomicU32, Ordering};
use std::test::Fail;
use std::thread::Threads;
use suite_solver::{Gate, RunFault, Settings, run, run_serial};

// Counts all its calls.
#[derive(Drop)]
struct AnyCall {
    calls: AtomicU32,
}

impl AnyCall {
    fn count(&self) {
        self.calls.fetch_add(1, Ordering::SeqCst);
    }
}

impl Gate for AnyCall {
    fn submitted<R: Wait>(&self, _rt: &R, _sender: u32, _count: usize) {
        self.count();
    }

    fn enter<R: Wait>(&self, _rt: &R, _sender: u32, _number: u32) {
        self.count();
    }

    fn leave<R: Wait>(&self, _rt: &R, _sender: u32, _number: u32) {
        self.count();
    }
}

// A full board.
const ONE_POSITION: &[u8] = b"XXXXXXXXXXXXXXXXXXXXXXXXXXXXXXXXXXXXXXXXXXXXXXXXXXXXXXXXXXXXXXXX X\n";

// `count` files of one position, and then one of `spaces` spaces, unless that is 0.
fn files_with_spaces(alloc: Global, count: u32, spaces: usize) -> Result<Vec<Vec<u8>>, AllocError>
    requires { spaces < 2 ^ 32 }
{
    let mut files = Vec::new(alloc);
    for _ in 0..count {
        files.push(text_of(alloc, ONE_POSITION)?)?;
    }
    if spaces > 0 {
        files.push(vec![in alloc; b' '; spaces]?)?;
    }
    Ok(files)
}

// The refusals by both runs, and how often the gate was called.
fn run_both<R: Threads + Wait + Sync>(
    rt: &R,
    alloc: Global,
    files: &[Vec<u8>],
) -> (Option<RunFault>, Option<RunFault>, u32) {
    let settings = settings_of(2, 16);
    let gate = AnyCall {
        calls: AtomicU32::new(0),
    };
    let serial = run_serial(alloc, files, &settings, None).err();
    let threaded = run(rt, alloc, files, &settings, None, &gate).err();
    (serial, threaded, gate.calls.load(Ordering::SeqCst))
}

// The files of one position, the spaces of a last file, the refusal, and the calls of the gate: one
// for each file and two for each job.
type Refused = (u32, u32, Option<RunFault>, u32);

const FILES: [Refused; 7] = [
    (MOST_FILES + 1, 0, Some(RunFault::TooManyFiles), 0),
    (MOST_FILES, MOST_BYTES + 1, Some(RunFault::TooManyFiles), 0),
    (1, MOST_BYTES + 1, Some(RunFault::FileTooLarge(1)), 0),
    (0, MOST_BYTES + 1, Some(RunFault::FileTooLarge(0)), 0),
    (MOST_FILES, 0, None, 3 * MOST_FILES),
    (MOST_FILES - 1, MOST_BYTES, None, 3 * MOST_FILES - 2),
    (0, 0, None, 0),
];

// No gate is called if files are refused.
#[test]
fn files_are_refused_first(rt: HostRuntime) -> Result<(), Fail> {
    for (count, spaces, fault, calls) in FILES {
        let files = files_with_spaces(rt.alloc(), count, spaces as usize)?;
        let (serial, threaded, called) = run_both(&rt, rt.alloc(), &files);
        assert!(rt; serial == fault && threaded == fault && called == calls);
    }
    Ok(())
}

// The limit of empty squares, the workers and the entries, and whether there are such settings.
const SETTINGS: [(u8, u8, u32, bool); 8] = [
    (0, 0, 0, true),
    (MOST_EMPTIES, MOST_WORKERS, MOST_ENTRIES, true),
    (MOST_EMPTIES + 1, MOST_WORKERS, MOST_ENTRIES, false),
    (MOST_EMPTIES, MOST_WORKERS + 1, MOST_ENTRIES, false),
    (MOST_EMPTIES, MOST_WORKERS, MOST_ENTRIES + 1, false),
    (MOST_EMPTIES + 1, 2, 0, false),
    (20, MOST_WORKERS + 1, 0, false),
    (20, 2, MOST_ENTRIES + 1, false),
];

#[test]
fn settings_are_within_limits(rt: HostRuntime) {
    for (empties, workers, table, is_some) in SETTINGS {
        for scoring in Scoring::ALL {
            let made = Settings::new(empties, workers, table, scoring);
            assert!(rt; made.is_some() == is_some);
        }
    }
}
