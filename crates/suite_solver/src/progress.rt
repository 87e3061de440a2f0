//! Runs that report their progress on standard error.

ghost use Rattle.std.specs.Prelude.{◌≡◌, ◌↔◌, false, IsTrue, OnOk};
ghost use Rattle.std.specs.Duration.{as_nanos};
ghost use Rattle.std.specs.Io.KnownBytes.{Appends};
ghost use Rattle.obf_text.specs.LineText.{texts_of};
ghost use Rattle.suite_runs.specs.Runs.{Answers, AreFilesOf};
ghost use Rattle.suite_solver.specs.ProgressText.{IsDue, progress_line};

use program_settings::Settings;
use solved_book::Claims;
use std::alloc::Global;
use std::io;
use std::io::Write;
use std::marker::{Send, Sync};
use std::rt::Clock;
use std::sync::atomic::{AtomicUsize, Ordering};
use std::sync::{Mutex, Wait};
use std::thread::Threads;
use std::time::{Duration, Instant};
use suite_runs::{Gate, NoGate, RunFault, SolvedFiles, solve_files};

// The least time from one line to the next, in nanoseconds, except for the last line.
const PAUSE: u128 = 5_000_000_000;

// How far a run is: how many positions are solved, how many there are in all, if that is known,
// and how long the run has taken.
#[derive(Clone, Copy, Drop)]
struct Progress {
    solved: usize,
    total: Option<usize>,
    elapsed: Duration,
}

// Writes the line of the progress, with whole seconds. The error is that of the writer.
#[tactic(auto, unfolding(crate::specs::ProgressText::progress_text, crate::specs::ProgressText::total_text))]
fn write_progress<E: Write>(errors: &mut E, progress: Progress) -> io::Result<()>
    ensures { OnOk result (Appends (E.contents errors.old) (E.contents errors.new)
        (progress_line progress)) }
{
    let (solved, seconds) = (progress.solved, progress.elapsed.as_secs());
    match progress.total {
        Some(total) => write!(
            errors,
            "ffosolve: solved {solved} of {total} in {seconds} s\n"
        ),
        None => write!(errors, "ffosolve: solved {solved} in {seconds} s\n"),
    }
}

// Whether a line is due, if the last one came at this time of the run.
fn is_due(last: Duration, progress: Progress) -> bool
    ensures { IsTrue result ↔ IsDue (as_nanos last) progress }
{
    progress.elapsed.saturating_sub(last).as_nanos() >= PAUSE
        && progress.total != Some(progress.solved)
}

// The stream for the lines, and when the last one was written, counted from the start of the run.
#[derive(Drop)]
struct Lines<'a, E: Write> {
    errors: &'a mut E,
    last: Duration,
}

impl<'a, E: Write> Lines<'a, E> {
    // The lines of a run that begins: none is written, and the first is due after five seconds.
    fn new(errors: &'a mut E) -> Lines<'a, E>
        ensures none { E.contents result.errors.now ≡ E.contents errors.old }
        ensures start { as_nanos result.last ≡ 0 }
    {
        Lines {
            errors,
            last: Duration::ZERO,
        }
    }

    // Writes the line of the progress if one is due, and keeps its time. The error is that of the
    // writer.
    fn report(&mut self, progress: Progress) -> io::Result<()>
        ensures written { IsDue (as_nanos self.old.last) progress → OnOk result (Appends
            (E.contents self.old.errors.now) (E.contents self.new.errors.now)
            (progress_line progress)) }
        ensures kept { IsDue (as_nanos self.old.last) progress
            → self.new.last ≡ progress.elapsed }
        ensures early { (IsDue (as_nanos self.old.last) progress → ⊥)
            → (E.contents self.new.errors.now ≡ E.contents self.old.errors.now)
            × (self.new.last ≡ self.old.last) }
    {
        if !is_due(self.last, progress) {
            return Ok(());
        }
        self.last = progress.elapsed;
        write_progress(self.errors, progress)
    }
}

/// A gate that counts the jobs of a run and those that are finished. After a finished job it writes
/// a line if one is due. No thread waits for another that writes. If the clock can't be read,
/// no line is written.
#[derive(Drop)]
pub struct ProgressGate<'a, C: Clock, E: Write> {
    clock: &'a C,
    start: Option<Instant>,
    // The files whose jobs are not all submitted.
    unread: AtomicUsize,
    submitted: AtomicUsize,
    solved: AtomicUsize,
    lines: Mutex<Lines<'a, E>>,
}

impl<'a, C: Clock, E: Write> ProgressGate<'a, C, E> {
    /// A gate for a run over this many files, which begins now.
    pub fn new(clock: &'a C, files: usize, errors: &'a mut E) -> ProgressGate<'a, C, E> {
        ProgressGate {
            clock,
            start: Instant::now(clock).ok(),
            unread: AtomicUsize::new(files),
            submitted: AtomicUsize::new(0),
            solved: AtomicUsize::new(0),
            lines: Mutex::new(Lines::new(errors)),
        }
    }

    // How many jobs there are in all; None while that is not known.
    fn total(&self) -> Option<usize> {
        if self.unread.load(Ordering::SeqCst) == 0 {
            Some(self.submitted.load(Ordering::SeqCst))
        } else {
            None
        }
    }

    // How far the run is; None if the clock can't be read.
    fn progress(&self) -> Option<Progress> {
        let elapsed = self.start?.elapsed(self.clock).ok()?;
        Some(Progress {
            solved: self.solved.load(Ordering::SeqCst),
            total: self.total(),
            elapsed,
        })
    }

    /// Writes the line at the end of the run. A failure of the stream changes nothing.
    pub fn end(self) {
        if let Some(progress) = self.progress() {
            let _ = write_progress(self.lines.into_inner().errors, progress);
        }
    }
}

impl<C: Clock + Sync, E: Write + Send> Gate for ProgressGate<'_, C, E> {
    fn submitted<R: Wait>(&self, _rt: &R, _sender: u32, count: usize) {
        self.submitted.fetch_add(count, Ordering::SeqCst);
        self.unread.fetch_sub(1, Ordering::SeqCst);
    }

    fn enter<R: Wait>(&self, _rt: &R, _sender: u32, _number: u32) {}

    fn leave<R: Wait>(&self, _rt: &R, _sender: u32, _number: u32) {}

    fn finished<R: Wait>(&self, _rt: &R, _sender: u32, _number: u32) {
        self.solved.fetch_add(1, Ordering::SeqCst);
        let Some(progress) = self.progress() else {
            return;
        };
        if let Some(mut lines) = self.lines.try_lock() {
            let _ = lines.report(progress);
        }
    }
}

// Solves files on threads, as `solve_files` does. With `progress`, lines on `errors` report the
// number of solved positions: at most one every five seconds, and one at the end.
pub(crate) fn solve_with_progress<T: Clock + Threads + Wait + Sync, E: Write + Send>(
    rt: &T,
    alloc: Global,
    files: &[Vec<u8>],
    settings: &Settings,
    claims: Option<&Claims>,
    progress: bool,
    errors: &mut E,
) -> Result<SolvedFiles, RunFault>
    ensures silent { progress ≡ false → E.contents errors.new ≡ E.contents errors.old }
    ensures solved { Answers (AreFilesOf settings.now (texts_of files.now))
        (texts_of files.now) result }
{
    if !progress {
        return solve_files(rt, alloc, files, settings, claims, &NoGate);
    }
    let gate = ProgressGate::new(rt, files.len(), errors);
    let solved = solve_files(rt, alloc, files, settings, claims, &gate);
    gate.end();
    solved
}
