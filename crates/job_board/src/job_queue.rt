//! The jobs that wait, those with the most empty squares first.

ghost use Rattle.std.specs.Prelude.{◌≡◌, ◌<◌, ◌≤◌, ◌+◌, ◌^◌, ◌↔◌, [], ◌∷◌, length};
ghost use Rattle.std.specs.Prelude.{IfSome, IfNone, IsTrue, OnOk};
ghost use Rattle.std.specs.List.Sorted.{IsPermutation};

use crate::jobs::JobId;
use endgame_search::Task;
use std::alloc::{AllocError, Global};
use std::cmp::Reverse;
use std::collections::BinaryHeap;
use std::marker::Model;

// A waiting job in the heap. The greatest has the most empty squares; among equal ones it is of the
// first sender, and among those it has the least number.
#[derive(Clone, Copy, PartialEq, Eq, PartialOrd, Ord)]
struct Entry {
    empties: u8,
    id: Reverse<JobId>,
}

/// A priority queue of jobs. The job with the most empty squares comes first; among equal ones a
/// job of the first sender, and among those the one with the least number. Contracts see the jobs
/// in no particular order, and for how many jobs there is room.
#[derive(Drop)]
pub(crate) struct JobQueue {
    heap: BinaryHeap<Entry>,
}

impl Model for JobQueue {
    ghost use Rattle.std.specs.Prelude.{map};
    ghost use Rattle.std.specs.BinaryHeap.{heap_items, heap_capacity};
    ghost use Rattle.job_board.specs.Queues.{Queue};

    ghost Value = { Queue };

    ghost view = { λ q. record {
      jobs = map (λ entry. entry.id.0) (heap_items q.heap);
      room = heap_capacity q.heap;
    } };
}

impl JobQueue {
    pub(crate) fn new(alloc: Global) -> JobQueue
        ensures { result.jobs ≡ [] }
    {
        JobQueue {
            heap: BinaryHeap::new(alloc),
        }
    }

    pub(crate) fn is_empty(&self) -> bool
        ensures { IsTrue result ↔ (length self.now.jobs ≡ 0) }
    {
        self.heap.is_empty()
    }

    /// Makes room for `additional` jobs beyond those in the queue.
    pub(crate) fn reserve(&mut self, additional: usize) -> Result<(), AllocError>
        ensures jobs { self.new.jobs ≡ self.old.jobs }
        ensures room { self.old.room ≤ self.new.room }
        ensures ok { OnOk result (length self.new.jobs + additional ≤ self.new.room) }
    {
        self.heap.reserve(additional)
    }

    /// Adds a job, for which there is room.
    pub(crate) fn push(&mut self, id: JobId, task: Task)
        requires { length self.old.jobs < self.old.room }
        ensures jobs { IsPermutation (id ∷ self.old.jobs) self.new.jobs }
        ensures room { self.old.room ≤ self.new.room }
    {
        let entry = Entry {
            empties: task.pos().empties(),
            id: Reverse(id),
        };
        let Ok(()) = self.heap.push(entry) else {
            unreachable!()
        };
    }

    /// Takes out the first job. None if the queue is empty.
    pub(crate) fn pop(&mut self) -> Option<JobId>
        ensures some { IfSome result (λ id. IsPermutation self.old.jobs (id ∷ self.new.jobs)) }
        ensures none { IfNone result ((self.old.jobs ≡ []) × (self.new.jobs ≡ [])) }
        ensures room { self.new.room ≡ self.old.room }
        ensures room_fits { self.old.room < 2 ^ 64 }
    {
        let entry = self.heap.pop()?;
        Some(entry.id.0)
    }
}
