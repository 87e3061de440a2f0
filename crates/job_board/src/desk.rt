//! A board that threads share under a lock. A desk takes the lock, calls `Board` or `Client`, and
//! wakes threads that wait.
//!
//! A worker waits until there is a job, or the board is done. A client waits until its next answer
//! or a job is there, or it is drained. Any thread that waits can take one more waiting job, so
//! `submit` and `give_back` wake one thread. Any of them may wait for what `finish` or `close`
//! does, so these wake all. A client that was woken for a job may find its answer, and leave the
//! job. The `finish` that gave the answer wakes all the others, and they look for the job.

ghost use Rattle.std.specs.Prelude.{◌≡◌, ◌<◌, ◌↔◌, IfOk, IfSome, OnOk, OnErr};
ghost use Rattle.job_board.specs.Limits.{most_senders};
ghost use Rattle.job_board.specs.declared.faults.BoardFault.TheVariants as fault;

use crate::board::Board;
use crate::client::{Client, Turn};
use crate::faults::{BoardFault, JobFault, Mixed, NoSender, SubmitFault};
use crate::jobs::{Job, JobId, SharedJob};
use endgame_search::{Solved, Task};
use std::alloc::Global;
use std::sync::{Condvar, Mutex, Wait};

/// A board under a lock, which threads share by reference.
#[derive(Drop)]
pub struct Desk {
    board: Mutex<Board>,
    changed: Condvar,
}

/// What a desk has for a thread that helps where it would wait.
#[derive(Clone, Copy, PartialEq, Eq, Debug)]
pub enum Errand<T> {
    /// What the thread asked for.
    Own(T),
    /// A job that another thread has taken, to be solved, too.
    Help(SharedJob),
}

impl Desk {
    ghost use Rattle.job_board.specs.Client.{with_sent};
    ghost use Rattle.job_board.specs.Turns.{TurnGives, ErrandGives, IsLater};

    /// A desk with a new board of `senders` senders, numbered from 0. The faults are those of
    /// `Board::new`: `TooManySenders` above `Board::MOST_SENDERS`, and `Memory`.
    pub fn new(alloc: Global, senders: u32) -> Result<Desk, BoardFault>
        ensures { (result ≡ Err fault.TooManySenders) ↔ (most_senders < senders) }
    {
        let board = Board::new(alloc, senders)?;
        Ok(Desk {
            board: Mutex::new(board),
            changed: Condvar::new(),
        })
    }

    /// Submits a task for the client's sender, and returns the number of its job, as
    /// `Board::submit` does. `Err` changes neither the client nor what the board holds. `Memory`
    /// if memory for the client's list is refused, before the board is asked.
    pub fn submit<R: Wait>(
        &self,
        rt: &R,
        client: &mut Client,
        task: Task,
    ) -> Result<u32, SubmitFault>
        ensures ok { OnOk result (client.new ≡ with_sent task client.old) }
        ensures err { OnErr result (client.new ≡ client.old) }
    {
        let number = {
            let mut board = self.board.lock(rt);
            client.send(&mut board, task)?
        };
        self.changed.notify_one();
        Ok(number)
    }

    /// Takes a job as `Board::take` does. While no job waits, the calling thread waits. None once
    /// the board is done: all senders are closed, and all jobs finished.
    pub fn take_or_wait<R: Wait>(&self, rt: &R) -> Option<Job> {
        let mut board = self.board.lock(rt);
        for _ in rt.forever() {
            if let Some(job) = board.take() {
                return Some(job);
            }
            if board.is_done() {
                return None;
            }
            board = self.changed.wait(rt, board);
        }
        unreachable!()
    }

    /// Takes a job as `take_or_wait` does. Where the calling thread would wait, it gets a job to help
    /// with, if `Board::find_taken` finds one of a place above `helped`: that of the job with which
    /// it helped last, or 0.
    pub fn take_or_help<R: Wait>(&self, rt: &R, helped: u64) -> Option<Errand<Job>>
        ensures { IfSome result (IsLater helped) }
    {
        let mut board = self.board.lock(rt);
        for _ in rt.forever() {
            if let Some(job) = board.take() {
                return Some(Errand::Own(job));
            }
            if board.is_done() {
                return None;
            }
            if let Some(shared) = board.find_taken(helped) {
                return Some(Errand::Help(shared));
            }
            board = self.changed.wait(rt, board);
        }
        unreachable!()
    }

    /// Finishes a taken job as `Board::finish` does, with its faults, and then wakes all threads
    /// that wait at the desk.
    pub fn finish<R: Wait>(&self, rt: &R, id: JobId, solved: Solved) -> Result<(), JobFault> {
        self.board.lock(rt).finish(id, solved)?;
        self.changed.notify_all();
        Ok(())
    }

    /// Lets a taken job wait again as `Board::give_back` does, with its faults, and then wakes one
    /// thread that waits at the desk.
    pub fn give_back<R: Wait>(&self, rt: &R, id: JobId) -> Result<(), JobFault> {
        self.board.lock(rt).give_back(id)?;
        self.changed.notify_one();
        Ok(())
    }

    /// Returns the client's next answer if it is there, and counts it; `Drained` if the
    /// sender is closed and all answers came back; otherwise a job, which the client has now taken.
    /// While there is none of these, the calling thread waits. `Mixed` if the board delivers an
    /// answer that is not the client's next, if the board replies `Drained` before the client
    /// has all answers, or if the board has no such sender. `Err` leaves the client as it was;
    /// an answer that is not the client's next counts as delivered at the board.
    pub fn turn<R: Wait>(&self, rt: &R, client: &mut Client) -> Result<Turn, Mixed>
        ensures ok { IfOk result (TurnGives client.old client.new) }
        ensures err { OnErr result (client.new ≡ client.old) }
    {
        let mut board = self.board.lock(rt);
        for _ in rt.forever() {
            if let Some(turn) = client.look(&mut board) {
                return turn;
            }
            board = self.changed.wait(rt, board);
        }
        unreachable!()
    }

    /// Returns what `turn` does. Where the calling thread would wait, it gets a job to help with, as
    /// from `take_or_help`; the client is then as it was.
    pub fn turn_or_help<R: Wait>(
        &self,
        rt: &R,
        client: &mut Client,
        helped: u64,
    ) -> Result<Errand<Turn>, Mixed>
        ensures ok { IfOk result (ErrandGives client.old client.new) }
        ensures err { OnErr result (client.new ≡ client.old) }
        ensures later { IfOk result (IsLater helped) }
    {
        let mut board = self.board.lock(rt);
        for _ in rt.forever() {
            if let Some(turn) = client.look(&mut board) {
                return Ok(Errand::Own(turn?));
            }
            if let Some(shared) = board.find_taken(helped) {
                return Ok(Errand::Help(shared));
            }
            board = self.changed.wait(rt, board);
        }
        unreachable!()
    }

    /// Closes the client's sender, as `Board::close` does, and then wakes all threads that wait at
    /// the desk. True if the sender was open; `Err` if the board has no such sender.
    pub fn close<R: Wait>(&self, rt: &R, client: &Client) -> Result<bool, NoSender> {
        let was_open = self.board.lock(rt).close(client.sender())?;
        self.changed.notify_all();
        Ok(was_open)
    }
}
