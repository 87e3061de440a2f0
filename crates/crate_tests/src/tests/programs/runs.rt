//! Runs on one thread and on many.

use super::{BOOK, BOTH, BOTH_BOOK, ONE, TWO, TWO_JOBS};
use othello_rules::Scoring;
use solved_book::Claims;
use std::alloc::{AllocError, Global};
use std::sync::{Mutex, Wait};
use std::test::Fail;
use std::thread::Threads;
use suite_solver::{Gate, Outcome, Settings, run_serial};

// The calls of a gate: how often each of two jobs was entered and left, and whether the first
// saw the second's end. They are the first two of a client, or the first ones of two.
#[derive(Clone, Copy, PartialEq, Eq, Debug)]
struct Calls {
    entered: [u32; 2],
    left: [u32; 2],
    seen: bool,
}

// Holds the first job until the second was left, for a limited number of turns.
#[derive(Drop)]
struct HoldingGate {
    calls: Mutex<Calls>,
}

impl HoldingGate {
    fn new() -> HoldingGate {
        HoldingGate {
            calls: Mutex::new(Calls {
                entered: [0, 0],
                left: [0, 0],
                seen: false,
            }),
        }
    }

    // Notes that the second job was left, if it was.
    fn sees<R: Wait>(&self, rt: &R) -> bool {
        let mut calls = self.calls.lock(rt);
        calls.seen = calls.left[1] != 0;
        calls.seen
    }

    fn hold<R: Wait>(&self, rt: &R) {
        for _ in 0..10_000_000u32 {
            if self.sees(rt) {
                return;
            }
        }
    }
}

impl Gate for HoldingGate {
    fn enter<R: Wait>(&self, rt: &R, sender: u32, number: u32) {
        let job = sender.saturating_add(number);
        count_call(&mut self.calls.lock(rt).entered, job as usize);
        if job == 0 {
            self.hold(rt);
        }
    }

    fn leave<R: Wait>(&self, rt: &R, sender: u32, number: u32) {
        let job = sender.saturating_add(number);
        count_call(&mut self.calls.lock(rt).left, job as usize);
    }
}

fn count_call(calls: &mut [u32; 2], at: usize) {
    if at < 2 {
        calls[at] = calls[at].wrapping_add(1);
    }
}

pub(super) fn text_of(alloc: Global, text: &[u8]) -> Result<Vec<u8>, AllocError> {
    Vec::from_slice(alloc, text)
}

// Files of these texts.
pub(super) fn files_of(alloc: Global, texts: &[&[u8]]) -> Result<Vec<Vec<u8>>, AllocError> {
    let mut files = Vec::new(alloc);
    for text in texts {
        files.push(text_of(alloc, text)?)?;
    }
    Ok(files)
}

pub(super) fn settings_of(workers: u8, table: u32) -> Settings {
    Settings::new(20, workers, table, Scoring::Winner).unwrap_or_default()
}

const BOTH_AT_ONCE: Calls = Calls {
    entered: [1, 1],
    left: [1, 1],
    seen: true,
};

// Whether two threads are at work on two jobs at once, and make these reports.
fn solve_at_once<R: Threads + Wait + Sync>(
    rt: &R,
    alloc: Global,
    texts: &[&[u8]],
    workers: u8,
    reports: &[u8],
) -> Result<bool, Fail> {
    let files = files_of(alloc, texts)?;
    let gate = HoldingGate::new();
    let outcome = suite_solver::run(rt, alloc, &files, &settings_of(workers, 16), None, &gate)?;
    let given = outcome.reports.concat(alloc)?;
    Ok(given.as_slice() == reports && gate.calls.into_inner() == BOTH_AT_ONCE)
}

// A client and a worker.
#[test]
fn two_threads_solve(rt: HostRuntime) -> Result<(), Fail> {
    assert!(rt; solve_at_once(&rt, rt.alloc(), &[TWO_JOBS], 1, TWO_JOBS_REPORT)?);
    Ok(())
}

// Two clients, and no worker.
#[test]
fn two_clients_solve(rt: HostRuntime) -> Result<(), Fail> {
    let texts = [&TWO_JOBS[..67], &TWO_JOBS[67..]];
    assert!(rt; solve_at_once(&rt, rt.alloc(), &texts, 0, TWO_CLIENTS_REPORTS)?);
    Ok(())
}

const TWO_CLIENTS_REPORTS: &[u8] = b"[1]
1 +64 B1 unlisted
solved 1 refused 0
[2]
1 +64 A1,H1 unlisted
solved 1 refused 0
";

const TWO_JOBS_REPORT: &[u8] = b"[1]
1 +64 B1 unlisted
2 +64 A1,H1 unlisted
solved 2 refused 0
";

// The reports of a run, and its book's text.
pub(super) fn texts_of(alloc: Global, outcome: Outcome) -> Result<(Vec<u8>, Vec<u8>), AllocError> {
    let Outcome { reports, book } = outcome;
    let mut text = Vec::new(alloc);
    if book.write(&mut text).is_err() {
        return Err(AllocError);
    }
    Ok((reports.concat(alloc)?, text))
}

// A run on one thread over both texts, with the claims of the first one's book. If an allocation
// is refused that the run can do without, it returns the same.
#[test]
fn gives_a_book_serially(rt: HostRuntime) -> Result<(), Fail> {
    let alloc = rt.alloc();
    let files = files_of(alloc, &[ONE, TWO])?;
    let claims = Claims::read(alloc, BOOK)?;
    let outcome = run_serial(alloc, &files, &settings_of(0, 16), Some(&claims))?;
    let (reports, book) = texts_of(alloc, outcome)?;
    assert!(rt; reports.as_slice() == BOTH && book.as_slice() == BOTH_BOOK);
    Ok(())
}
