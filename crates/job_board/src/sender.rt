//! The jobs of one sender at a board.

ghost use Rattle.std.specs.Prelude.{◌≡◌, ◌<◌, ◌≤◌, Some, length, slice_get, not, IfSome, OnOk, OnErr};
ghost use Rattle.std.specs.Result.{result_err};
ghost use Rattle.job_board.specs.Limits.{most_jobs};
ghost use Rattle.job_board.specs.declared.jobs.Stage.TheVariants.{Waiting, Taken, Finished};

use crate::faults::{JobFault, SubmitFault};
use crate::jobs::{Delivery, Handed, Stage, is_answer_of};
use endgame_search::{Solved, Task};
use std::alloc::{AllocError, Global};
use std::marker::Model;

// The most jobs of one sender.
const MOST_JOBS: usize = 65_535;

/// The jobs of one sender, numbered from 0: the task and the stage of each, how many answers were
/// delivered, and whether the sender is closed.
#[derive(Drop)]
pub(crate) struct Sender {
    tasks: Vec<Task>,
    stages: Vec<Stage>,
    handed: u32,
    closed: bool,
}

impl Model for Sender {
    ghost use Rattle.job_board.specs.Senders.{SenderView};

    ghost Value = { SenderView };

    ghost view = { λ s. record {
      tasks = s.tasks.items;
      stages = s.stages.items;
      handed = s.handed;
      closed = s.closed;
    } };
}

impl Sender {
    ghost use Rattle.job_board.specs.Senders.{empty_state, with_stage, with_task, closed_state};
    ghost use Rattle.job_board.specs.Replies.{submit_refusal, FinishAs, give_back_reply_at};
    ghost use Rattle.job_board.specs.Replies.{deliver_reply_of, state_after_handed, answer_in};

    pub(crate) fn new(alloc: Global) -> Sender
        ensures { result ≡ empty_state }
    {
        Sender {
            tasks: Vec::new(alloc),
            stages: Vec::new(alloc),
            handed: 0,
            closed: false,
        }
    }

    /// The task of job `number`. None if the sender has no such job.
    pub(crate) fn task(&self, number: u32) -> Option<Task>
        ensures { result ≡ slice_get self.now.tasks number }
    {
        self.tasks.get(number as usize).copied()
    }

    /// The stage of job `number`. None if the sender has no such job.
    pub(crate) fn stage(&self, number: u32) -> Option<Stage>
        ensures { result ≡ slice_get self.now.stages number }
    {
        self.stages.get(number as usize).copied()
    }

    /// How many jobs the sender has.
    pub(crate) fn len(&self) -> usize
        ensures { result ≡ length self.now.tasks }
    {
        self.tasks.len()
    }

    pub(crate) fn is_closed(&self) -> bool
        ensures { result ≡ self.now.closed }
    {
        self.closed
    }

    /// Whether the sender accepts one more task, if there is memory. `Err` is `Closed`, otherwise
    /// `Full`.
    pub(crate) fn check_submit(&self) -> Result<(), SubmitFault>
        ensures { result_err result ≡ submit_refusal (Some self.now) }
    {
        if self.closed {
            return Err(SubmitFault::Closed);
        }
        if self.tasks.len() >= MOST_JOBS {
            return Err(SubmitFault::Full);
        }
        Ok(())
    }

    /// Adds a job, which waits. `Err` leaves the sender as it was.
    pub(crate) fn push(&mut self, task: Task) -> Result<(), AllocError>
        ensures ok { OnOk result (self.new ≡ with_task task self.old) }
        ensures err { OnErr result (self.new ≡ self.old) }
    {
        self.stages.reserve(1)?;
        self.tasks.push(task)?;
        self.stages.push_reserved(Stage::Waiting);
        Ok(())
    }

    /// Sets the stage of job `number`.
    pub(crate) fn set_stage(&mut self, number: u32, stage: Stage)
        requires { number < length self.old.stages }
        ensures { self.new ≡ with_stage number stage self.old }
    {
        self.stages[number as usize] = stage;
    }

    /// Finishes a taken job by the answer of its own task. `NotTaken` if job `number` is
    /// unknown, waiting or finished; `OtherPosition` if the answer is not that of its task.
    pub(crate) fn finish(&mut self, number: u32, solved: Solved) -> Result<(), JobFault>
        ensures reply { FinishAs
            (slice_get self.old.stages number) (slice_get self.old.tasks number) solved result }
        ensures ok { OnOk result (self.new ≡ with_stage number (Finished solved) self.old) }
        ensures err { OnErr result (self.new ≡ self.old) }
    {
        let Some(Stage::Taken) = self.stage(number) else {
            return Err(JobFault::NotTaken);
        };
        match self.task(number) {
            Some(task) if is_answer_of(solved, task) => {
                self.set_stage(number, Stage::Finished(solved));
                Ok(())
            }
            _ => Err(JobFault::OtherPosition),
        }
    }

    /// Lets a taken job wait again. `NotTaken` if job `number` is unknown, waiting or finished.
    pub(crate) fn give_back(&mut self, number: u32) -> Result<(), JobFault>
        ensures reply { result ≡ give_back_reply_at (slice_get self.old.stages number) }
        ensures ok { OnOk result (self.new ≡ with_stage number Waiting self.old) }
        ensures err { OnErr result (self.new ≡ self.old) }
    {
        let Some(Stage::Taken) = self.stage(number) else {
            return Err(JobFault::NotTaken);
        };
        self.set_stage(number, Stage::Waiting);
        Ok(())
    }

    /// The task of job `number`, if that job is taken.
    pub(crate) fn taken_task(&self, number: u32) -> Option<Task>
        ensures stage { IfSome result (λ _. slice_get self.now.stages number ≡ Some Taken) }
        ensures task { IfSome result (λ task. slice_get self.now.tasks number ≡ Some task) }
    {
        match self.stage(number) {
            Some(Stage::Taken) => self.task(number),
            _ => None,
        }
    }

    /// The answer of job `number`. None if the job is unknown or not finished.
    fn answer(&self, number: u32) -> Option<Solved>
        ensures { result ≡ answer_in (slice_get self.now.stages number) }
    {
        match self.stages.get(number as usize) {
            Some(Stage::Finished(solved)) => Some(*solved),
            _ => None,
        }
    }

    /// Returns the next answer, in the order of the submits, and counts it. `Waiting` if the
    /// next job is not finished, or if there is none and the sender is open; `Drained` if
    /// there is none and the sender is closed.
    pub(crate) fn deliver(&mut self) -> Handed
        requires { self.old.handed ≤ most_jobs }
        ensures reply { result ≡ deliver_reply_of self.old }
        ensures state { self.new ≡ state_after_handed self.old result }
    {
        let number = self.handed;
        if let Some(solved) = self.answer(number) {
            self.handed += 1;
            return Handed::Next(Delivery { number, solved });
        }
        if self.closed && number as usize == self.tasks.len() {
            Handed::Drained
        } else {
            Handed::Waiting
        }
    }

    /// Closes the sender. True if it was open.
    pub(crate) fn close(&mut self) -> bool
        ensures was { result ≡ not self.old.closed }
        ensures state { self.new ≡ closed_state self.old }
    {
        let was_open = !self.closed;
        self.closed = true;
        was_open
    }
}
