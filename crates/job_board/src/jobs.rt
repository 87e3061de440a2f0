//! Jobs, their stages and their answers.

ghost use Rattle.std.specs.Prelude.{◌≡◌, ◌↔◌, IsTrue};

use endgame_search::{Solved, Task};

/// A job's name: its sender, and its place among the sender's jobs. Both are counted from 0.
#[derive(Clone, Copy, PartialEq, Eq, PartialOrd, Ord, Default, Debug)]
pub struct JobId {
    pub sender: u32,
    pub number: u32,
}

/// A task with the name of its job.
#[derive(Clone, Copy, PartialEq, Eq, Debug)]
pub struct Job {
    pub id: JobId,
    pub task: Task,
}

/// A taken job that other threads can solve, too. By the table that they share, the thread that took
/// it is done sooner.
#[derive(Clone, Copy, PartialEq, Eq, Debug)]
pub struct SharedJob {
    /// How many jobs that threads can share were taken at the board, up to this one.
    pub place: u64,
    pub job: Job,
}

/// The stage of a job.
#[derive(Clone, Copy, PartialEq, Eq, Debug)]
pub enum Stage {
    /// It waits to be taken.
    Waiting,
    /// It was taken, and since then neither finished nor given back.
    Taken,
    /// It is finished, with this answer.
    Finished(Solved),
}

/// The answer of a job, with the job's number among the jobs of its sender, from 0.
#[derive(Clone, Copy, PartialEq, Eq, Debug)]
pub struct Delivery {
    pub number: u32,
    pub solved: Solved,
}

/// What `Board::deliver` returns for a sender.
#[derive(Clone, Copy, PartialEq, Eq, Debug)]
pub enum Handed {
    /// The next answer, in the order of the submits.
    Next(Delivery),
    /// The sender's next job is not finished; or all its answers were delivered and it is open.
    Waiting,
    /// The sender is closed, and all its answers were delivered.
    Drained,
    /// The board has no sender of that number.
    NoSender,
}

/// Whether the answer is that of the task: of its position, under its scoring.
pub(crate) fn is_answer_of(solved: Solved, task: Task) -> bool
    ensures { IsTrue result ↔ (task ≡ solved) }
{
    solved.pos() == task.pos() && solved.scoring() == task.scoring()
}
