//! Calls before and after each job of a run, and once the jobs of a file are known.

use std::marker::Sync;
use std::sync::Wait;

/// Calls that the threads of a run make: one when a file's jobs are at the desk, from which the
/// threads take them; one before and one after each job is solved; and one if its answer was
/// accepted. `sender` is the number of the job's file, and `number` the number of the job in that
/// file; both are counted from 0.
pub trait Gate: Sync {
    /// Called after all jobs of a file were submitted, `count` in all. Other threads may have solved
    /// some of them. A file whose jobs are not all submitted gets no call. The provided method does
    /// nothing.
    fn submitted<R: Wait>(&self, _rt: &R, _sender: u32, _count: usize) {}

    /// Called after a thread took the job, and before it solves the job.
    fn enter<R: Wait>(&self, rt: &R, sender: u32, number: u32);

    /// Called after the desk accepted or refused the answer of the job.
    fn leave<R: Wait>(&self, rt: &R, sender: u32, number: u32);

    /// Called after `leave`, if the desk accepted the answer of the job. The provided method does
    /// nothing.
    fn finished<R: Wait>(&self, _rt: &R, _sender: u32, _number: u32) {}
}

/// A gate whose calls do nothing.
#[derive(Clone, Copy, Debug)]
pub struct NoGate;

impl Gate for NoGate {
    fn enter<R: Wait>(&self, _rt: &R, _sender: u32, _number: u32) {}

    fn leave<R: Wait>(&self, _rt: &R, _sender: u32, _number: u32) {}
}
