//! Solves the jobs of a desk.

ghost use Rattle.std.specs.Prelude.{◌≡◌, IfOk, IfErr, IfSome, OnErr};
ghost use Rattle.job_board.specs.Turns.{ErrandGives, IsLater};
ghost use Rattle.suite_runs.specs.declared.run_fault.RunFault.TheVariants as fault;

use crate::gate::Gate;
use crate::run_fault::RunFault;
use crate::solver::Solver;
use bound_table::Bounds;
use job_board::{Client, Desk, Errand, Job, Mixed, SharedJob, Turn};
use solved_book::Claims;
use std::sync::Wait;

/// What a thread needs to solve the jobs of a desk: the desk, a solver, and the gate that is called
/// for each job.
#[derive(Drop)]
pub(crate) struct Worker<'a, T: Bounds, G: Gate> {
    pub(crate) desk: &'a Desk,
    pub(crate) solver: Solver<'a, T>,
    pub(crate) gate: &'a G,
}

impl<'a, T: Bounds, G: Gate> Worker<'a, T, G> {
    /// Solves a taken job and finishes it at the desk. A job under a scoring other than the table's
    /// is given back instead. The fault is `Mixed` if the job is given back, or if the desk
    /// refuses the answer.
    pub(crate) fn solve_job<R: Wait>(&self, rt: &R, job: Job) -> Result<(), RunFault>
        ensures { IfErr result (λ f. f ≡ fault.Mixed) }
    {
        if job.task.scoring() != self.solver.scoring() {
            let _ = self.desk.give_back(rt, job.id);
            return Err(RunFault::Mixed);
        }
        self.gate.enter(rt, job.id.sender, job.id.number);
        let finished = self.desk.finish(rt, job.id, self.solver.answer(job.task));
        self.gate.leave(rt, job.id.sender, job.id.number);
        let Ok(()) = finished else {
            return Err(RunFault::Mixed);
        };
        self.gate.finished(rt, job.id.sender, job.id.number);
        Ok(())
    }

    /// Solves a job that another thread has taken, and drops the answer. The two share the work by
    /// the table, so the other thread is done sooner. Returns the job's place. A job under a scoring
    /// other than the table's is left alone.
    pub(crate) fn help(&self, shared: SharedJob) -> u64
        ensures { result ≡ shared.place }
    {
        let SharedJob { place, job } = shared;
        let task = job.task;
        if task.scoring() == self.solver.scoring() {
            let _ = self.solver.answer(task);
        }
        place
    }

    // Takes a job at the desk. Where the thread would wait, it gets a job to help with, if help is
    // of use over the table: one whose place in the desk's list of shared jobs is above `helped`,
    // which is what `help` returned last, or 0.
    fn take<R: Wait>(&self, rt: &R, helped: u64) -> Option<Errand<Job>>
        ensures { IfSome result (IsLater helped) }
    {
        if self.solver.is_worth_sharing() {
            return self.desk.take_or_help(rt, helped);
        }
        let job = self.desk.take_or_wait(rt)?;
        Some(Errand::Own(job))
    }

    /// Makes a turn of the client at the desk. Where the thread would wait, it gets a job to help
    /// with, after that of place `helped`, if help is of use over the table.
    pub(crate) fn turn<R: Wait>(
        &self,
        rt: &R,
        client: &mut Client,
        helped: u64,
    ) -> Result<Errand<Turn>, Mixed>
        ensures ok { IfOk result (ErrandGives client.old client.new) }
        ensures err { OnErr result (client.new ≡ client.old) }
        ensures later { IfOk result (IsLater helped) }
    {
        if self.solver.is_worth_sharing() {
            return self.desk.turn_or_help(rt, client, helped);
        }
        let turn = self.desk.turn(rt, client)?;
        Ok(Errand::Own(turn))
    }

    /// Takes jobs at the desk and solves them until the desk is done. While no job waits, it helps
    /// with jobs that other threads have taken, one after another, if help is of use over the
    /// table; otherwise it waits for other threads. It ends early after a job under a scoring other
    /// than the table's, and after an answer that the desk refuses.
    pub(crate) fn work<R: Wait>(&self, rt: &R) {
        let mut helped = 0;
        for _ in rt.forever() {
            match self.take(rt, helped) {
                None => return,
                Some(Errand::Help(shared)) => helped = self.help(shared),
                Some(Errand::Own(job)) => {
                    let Ok(()) = self.solve_job(rt, job) else {
                        return;
                    };
                }
            }
        }
    }
}

/// Does the whole part of a worker: `Worker::work` at this desk, over this table and with these claims.
/// Programs have workers by `solve_files`; a test gives them a table that counts.
pub fn worker_part<R: Wait, T: Bounds, G: Gate>(
    rt: &R,
    desk: &Desk,
    table: &T,
    claims: Option<&Claims>,
    gate: &G,
) {
    let worker = Worker {
        desk,
        solver: Solver::new(table, claims),
        gate,
    };
    worker.work(rt);
}
