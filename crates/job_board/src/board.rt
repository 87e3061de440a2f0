//! The jobs of all senders.

ghost use Rattle.std.specs.Prelude.{◌≡◌, ◌<◌, ◌≤◌, ◌↔◌, length, true, IfOk, IsOk, IsTrue, All};
ghost use Rattle.job_board.specs.Limits.{most_senders};
ghost use Rattle.job_board.specs.declared.faults.BoardFault.TheVariants as fault;

use crate::faults::{BoardFault, JobFault, NoSender, SubmitFault};
use crate::job_queue::JobQueue;
use crate::jobs::{Handed, Job, JobId, SharedJob, Stage};
use crate::sender::Sender;
use crate::shared_jobs::SharedJobs;
use endgame_search::{Solved, Task};
use std::alloc::Global;
use std::marker::Model;

/// The jobs of up to 64 senders. Each job waits, is taken or is finished. A board doesn't record
/// who took a job: any caller may finish a taken job, or give it back. For each sender, contracts
/// see the tasks, their stages, how many answers were delivered, and whether it is closed.
#[derive(Drop)]
pub struct Board {
    pub(crate) senders: Vec<Sender>,
    waiting: JobQueue,
    taken: usize,
    shared: SharedJobs,
}

impl Model for Board {
    ghost use Rattle.job_board.specs.Senders.{BoardView};
    ghost use Rattle.job_board.specs.Boards.{IsBoard};

    ghost Value = { BoardView };

    ghost view = { λ b. b.senders.items };

    ghost invariant = { λ b. IsBoard b.senders.items b.waiting.jobs b.taken b.waiting.room };
}

// Whether all senders are closed. A function of its own so that a contract says it.
fn are_closed(senders: &[Sender]) -> bool
    ensures { IsTrue result ↔ All (λ state. state.closed ≡ true) senders.now }
{
    senders.iter().all(|sender| sender.is_closed())
}

impl Board {
    ghost use Rattle.std.specs.Prelude.{Some, IfSome};
    ghost use Rattle.job_board.specs.declared.jobs.Stage.TheVariants.{Taken};
    ghost use Rattle.job_board.specs.Senders.{empty_content, stage_at, task_at};
    ghost use Rattle.job_board.specs.Boards.{AllDone};
    ghost use Rattle.job_board.specs.Replies.{Submits, after_submit, Takes, after_take};
    ghost use Rattle.job_board.specs.Replies.{Finishes, after_finish, give_back_reply};
    ghost use Rattle.job_board.specs.Replies.{after_give_back};
    ghost use Rattle.job_board.specs.Replies.{deliver_reply, after_deliver, close_reply};
    ghost use Rattle.job_board.specs.Replies.{after_close};

    /// The most senders of a board.
    pub const MOST_SENDERS: u32 = 64;

    /// A board of `senders` senders, numbered from 0, with no jobs. `TooManySenders` above
    /// `MOST_SENDERS`, before any memory is asked for; `Memory` if memory was refused.
    pub fn new(alloc: Global, senders: u32) -> Result<Board, BoardFault>
        ensures too_many { (result ≡ Err fault.TooManySenders) ↔ (most_senders < senders) }
        ensures empty { IfOk result (λ board. board ≡ empty_content senders) }
    {
        if senders > Self::MOST_SENDERS {
            return Err(BoardFault::TooManySenders);
        }
        let Ok(mut made) = Vec::with_capacity(alloc, senders as usize) else {
            return Err(BoardFault::Memory);
        };
        'made: for _ in 0..senders {
            made.push_reserved(Sender::new(alloc));
        }
        Ok(Board {
            senders: made,
            waiting: JobQueue::new(alloc),
            taken: 0,
            shared: SharedJobs::new(),
        })
    }

    /// Accepts a task for a sender, and returns the number of its job: how many tasks of the sender
    /// were accepted before. All memory that the job will ever need is taken here, including the
    /// room to wait again. If several faults of `SubmitFault` apply, the first is returned.
    /// `Err` leaves what the board holds as it was.
    pub fn submit(&mut self, sender: u32, task: Task) -> Result<u32, SubmitFault>
        ensures lawful { Submits self.old sender result }
        ensures content { self.new ≡ after_submit self.old sender task result }
    {
        let Some(jobs) = self.senders.get_mut(sender as usize) else {
            return Err(SubmitFault::NoSender);
        };
        jobs.check_submit()?;
        let number = jobs.len() as u32;
        self.waiting.reserve(self.taken + 1)?;
        jobs.push(task)?;
        self.waiting.push(JobId { sender, number }, task);
        Ok(number)
    }

    /// Takes the waiting job with the most empty squares. Among equal ones it takes a job of the
    /// first sender, and among those the one with the least number. None if no job waits.
    pub fn take(&mut self) -> Option<Job>
        ensures lawful { Takes self.old result }
        ensures content { self.new ≡ after_take self.old result }
    {
        let id = self.waiting.pop()?;
        let jobs = &mut self.senders[id.sender as usize];
        let Some(task) = jobs.task(id.number) else {
            unreachable!()
        };
        jobs.set_stage(id.number, Stage::Taken);
        self.taken += 1;
        self.shared.add(id, task);
        Some(Job { id, task })
    }

    /// Finishes a taken job by the answer of its own position under its own scoring. `NotTaken`
    /// if the job is unknown, waiting or finished; `OtherPosition` if the answer is that of
    /// another position or scoring. `Err` changes nothing.
    pub fn finish(&mut self, id: JobId, solved: Solved) -> Result<(), JobFault>
        ensures lawful { Finishes self.old id solved result }
        ensures content { self.new ≡ after_finish self.old id solved result }
    {
        let Some(jobs) = self.senders.get_mut(id.sender as usize) else {
            return Err(JobFault::NotTaken);
        };
        jobs.finish(id.number, solved)?;
        self.taken -= 1;
        self.shared.remove(id);
        Ok(())
    }

    /// The first taken job that threads can share, of those after that of place `helped`: 0 for any.
    /// None if there is none. A job that was taken beside 128 others is not found. A thread that
    /// always gives the place of the job that it helped with last helps with no job twice, unless the
    /// job is given back and taken again.
    pub fn find_taken(&self, helped: u64) -> Option<SharedJob>
        ensures stage { IfSome result
            (λ s. stage_at self.now s.job.id.sender s.job.id.number ≡ Some Taken) }
        ensures task { IfSome result
            (λ s. task_at self.now s.job.id.sender s.job.id.number ≡ Some s.job.task) }
        ensures later { IfSome result (λ s. helped < s.place) }
    {
        let listed = self.shared.first_after(helped)?;
        let id = listed.id;
        let task = self.senders.get(id.sender as usize)?.taken_task(id.number)?;
        Some(SharedJob {
            place: listed.place,
            job: Job { id, task },
        })
    }

    /// Lets a taken job wait again. `NotTaken` if the job is unknown, waiting or finished;
    /// nothing is changed then.
    pub fn give_back(&mut self, id: JobId) -> Result<(), JobFault>
        ensures lawful { result ≡ give_back_reply self.old id }
        ensures content { self.new ≡ after_give_back self.old id result }
    {
        let Some(jobs) = self.senders.get_mut(id.sender as usize) else {
            return Err(JobFault::NotTaken);
        };
        let Some(task) = jobs.task(id.number) else {
            return Err(JobFault::NotTaken);
        };
        jobs.give_back(id.number)?;
        self.taken -= 1;
        self.shared.remove(id);
        self.waiting.push(id, task);
        Ok(())
    }

    /// Returns the next answer of a sender, in the order of its submits, and counts it as
    /// delivered. `Waiting` if the sender's next job is not finished, or if all its answers
    /// were delivered and it is open; `Drained` if all were delivered and it is closed;
    /// `NoSender` if the board has no such sender.
    pub fn deliver(&mut self, sender: u32) -> Handed
        ensures lawful { result ≡ deliver_reply self.old sender }
        ensures content { self.new ≡ after_deliver self.old sender result }
    {
        let Some(jobs) = self.senders.get_mut(sender as usize) else {
            return Handed::NoSender;
        };
        jobs.deliver()
    }

    /// Closes a sender, which accepts no task from then on. Its jobs are still solved and
    /// delivered. True if it was open; `Err` if the board has no such sender.
    pub fn close(&mut self, sender: u32) -> Result<bool, NoSender>
        ensures lawful { result ≡ close_reply self.old sender }
        ensures content { self.new ≡ after_close self.old sender result }
    {
        let Some(jobs) = self.senders.get_mut(sender as usize) else {
            return Err(NoSender);
        };
        Ok(jobs.close())
    }

    /// Whether all senders are closed and all jobs finished. Answers may still be undelivered.
    pub fn is_done(&self) -> bool
        ensures { IsTrue result ↔ AllDone self.now }
    {
        if self.taken > 0 {
            return false;
        }
        if !self.waiting.is_empty() {
            return false;
        }
        are_closed(self.senders.as_slice())
    }
}
