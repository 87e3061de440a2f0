//! Lines that report the progress of a run.

use std::alloc::Global;
use std::io::Write;
use std::rt::Clock;
use std::sync::Wait;
use std::sync::atomic::{AtomicBool, AtomicU64, Ordering};
use std::test::Fail;
use std::thread::Threads;
use std::time::Duration;
use std::{io, thread};
use suite_solver::{Gate, ProgressGate};

// A clock that a test moves, and that can be read a given number of times.
#[derive(Drop)]
struct MovedClock {
    millis: AtomicU64,
    reads_left: AtomicU64,
}

impl MovedClock {
    fn new(millis: u64, reads_left: u64) -> MovedClock {
        MovedClock {
            millis: AtomicU64::new(millis),
            reads_left: AtomicU64::new(reads_left),
        }
    }

    fn move_on(&self, millis: u64) {
        self.millis.fetch_add(millis, Ordering::SeqCst);
    }
}

impl Clock for MovedClock {
    fn monotonic(&self) -> io::Result<Duration> {
        if self.reads_left.load(Ordering::SeqCst) == 0 {
            return Err(io::Error::from(io::ErrorKind::Unsupported));
        }
        self.reads_left.fetch_sub(1, Ordering::SeqCst);
        Ok(Duration::from_millis(self.millis.load(Ordering::SeqCst)))
    }

    fn since_1970(&self) -> io::Result<Duration> {
        Err(io::Error::from(io::ErrorKind::Unsupported))
    }
}

// How many milliseconds after the one before it each job ends. No line may come at job 4, which ends
// 4.999 seconds after one, nor at jobs 6 and 7: the line before came at 10.9 seconds, and they end at
// 15.1 and 15.899.
const PAUSES: [u64; 11] = [4_999, 1, 1, 4_998, 901, 4_200, 799, 1, 24_100, 1, 9_999];

const LINES: &[u8] = b"\
ffosolve: solved 2 in 5 s
ffosolve: solved 5 in 10 s
ffosolve: solved 8 of 11 in 15 s
ffosolve: solved 9 of 11 in 40 s
ffosolve: solved 11 of 11 in 50 s
";

// A line comes no sooner than five seconds after the last, except for the line at the end, which
// alone says that all are solved. The number of all jobs is known once both files are submitted.
#[test]
fn lines_come_five_seconds_apart(rt: HostRuntime) {
    let clock = MovedClock::new(3_100, 100);
    let mut errors = Vec::new(rt.alloc());
    let gate = ProgressGate::new(&clock, 2, &mut errors);
    gate.submitted(&rt, 1, 5);
    let mut number: u32 = 0;
    for pause in PAUSES {
        if number == 5 {
            gate.submitted(&rt, 0, 6);
        }
        gate.enter(&rt, 0, number);
        clock.move_on(pause);
        gate.leave(&rt, 0, number);
        gate.finished(&rt, 0, number);
        number = number.wrapping_add(1);
    }
    clock.move_on(400);
    gate.end();
    assert!(rt; errors.as_slice() == LINES);
}

const LINES_OF_ONE: &[u8] = b"\
ffosolve: solved 1 of 3 in 5 s
ffosolve: solved 1 of 3 in 6 s
";

// A position counts once it is solved, and not once its job begins.
#[test]
fn counts_what_is_solved(rt: HostRuntime) {
    let clock = MovedClock::new(0, 100);
    let mut errors = Vec::new(rt.alloc());
    let gate = ProgressGate::new(&clock, 1, &mut errors);
    gate.submitted(&rt, 0, 3);
    for number in 0..3 {
        gate.enter(&rt, 0, number);
    }
    clock.move_on(5_000);
    gate.leave(&rt, 0, 2);
    gate.finished(&rt, 0, 2);
    clock.move_on(1_000);
    gate.end();
    assert!(rt; errors.as_slice() == LINES_OF_ONE);
}

// What is written for two jobs, by a clock that can be read this many times.
fn lines_by(rt: &impl Wait, alloc: Global, reads_left: u64) -> Vec<u8> {
    let clock = MovedClock::new(0, reads_left);
    let mut errors = Vec::new(alloc);
    let gate = ProgressGate::new(&clock, 1, &mut errors);
    gate.submitted(rt, 0, 2);
    for number in 0..2 {
        gate.enter(rt, 0, number);
        clock.move_on(5_000);
        gate.leave(rt, 0, number);
        gate.finished(rt, 0, number);
    }
    gate.end();
    errors
}

const LINES_OF_TWO: &[u8] = b"\
ffosolve: solved 1 of 2 in 5 s
ffosolve: solved 2 of 2 in 10 s
";

// The clock is read as the run begins, after each job and at the end. If it can't be read, nothing
// more is reported.
#[test]
fn a_clock_that_fails_ends_the_lines(rt: HostRuntime) {
    let (none, whole) = (lines_by(&rt, rt.alloc(), 0), lines_by(&rt, rt.alloc(), 4));
    assert!(rt; none.is_empty() && whole.as_slice() == LINES_OF_TWO);
    for reads in 1..4 {
        let lines = lines_by(&rt, rt.alloc(), reads);
        assert!(rt; LINES_OF_TWO.starts_with(&lines) && lines.len() < LINES_OF_TWO.len());
    }
}

// What a writer and a test signal to each other.
#[derive(Drop)]
struct Signals {
    is_writing: AtomicBool,
    may_end: AtomicBool,
}

// Waits for a signal, for a limited number of turns. The result says whether it came.
fn wait_for(signal: &AtomicBool) -> bool {
    for _ in 0..u32::MAX {
        if signal.load(Ordering::SeqCst) {
            return true;
        }
    }
    false
}

// A writer whose first write ends once a signal comes.
#[derive(Drop)]
struct HeldWriter<'a> {
    signals: &'a Signals,
    was_freed: bool,
}

impl Write for HeldWriter<'_> {
    fn write(&mut self, buf: &[u8]) -> io::Result<usize> {
        self.signals.is_writing.store(true, Ordering::SeqCst);
        self.was_freed = wait_for(&self.signals.may_end);
        Ok(buf.len())
    }

    fn flush(&mut self) -> io::Result<()> {
        Ok(())
    }
}

// The end of a job whose line the writer holds, or of another job in the meantime, after which the
// writer may go on.
fn end_job<R: Wait, G: Gate>(rt: &R, gate: &G, signals: &Signals, thread: usize) -> bool {
    if thread == 0 {
        gate.finished(rt, 0, 0);
        return true;
    }
    let writes = wait_for(&signals.is_writing);
    gate.finished(rt, 0, 1);
    signals.may_end.store(true, Ordering::SeqCst);
    writes
}

// A thread that ends a job goes on while another one writes a line.
#[test]
fn no_job_waits_for_the_stream(rt: HostRuntime) -> Result<(), Fail> {
    let signals = Signals {
        is_writing: AtomicBool::new(false),
        may_end: AtomicBool::new(false),
    };
    let mut errors = HeldWriter {
        signals: &signals,
        was_freed: false,
    };
    let clock = MovedClock::new(0, 100);
    let gate = ProgressGate::new(&clock, 1, &mut errors);
    clock.move_on(5_000);
    let ended = thread::map_indices(
        &rt,
        rt.alloc(),
        2,
        &|i| { end_job(&rt, &gate, &signals, i) },
    )?;
    gate.end();
    assert!(rt; ended.as_slice() == [true, true].as_slice() && errors.was_freed);
    Ok(())
}
