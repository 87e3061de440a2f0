//! One sender at a desk: which tasks it sent, and how many of their answers came back.

ghost use Rattle.std.specs.Prelude.{◌≡◌, ◌≢◌, ◌<◌, ◌+◌, length, IfOk, IfSome, IfNone, OnOk};
ghost use Rattle.std.specs.Prelude.{OnErr, Err, slice_get};
ghost use Rattle.job_board.specs.Limits.{most_jobs};
ghost use Rattle.job_board.specs.declared.faults.SubmitFault.TheVariants as fault;
ghost use Rattle.job_board.specs.declared.client.Turn.TheVariants.{Next, Drained};

use crate::board::Board;
use crate::faults::{Mixed, SubmitFault};
use crate::jobs::{Delivery, Handed, Job, is_answer_of};
use crate::laws::boards_have_contents;
use endgame_search::Task;
use std::alloc::Global;
use std::marker::Model;

/// What `Desk::turn` returns.
#[derive(Clone, Copy, PartialEq, Eq, Debug)]
pub enum Turn {
    /// The client's next answer.
    Next(Delivery),
    /// A job of any sender, which the client has now taken.
    Work(Job),
    /// The sender is closed, and all answers came back.
    Drained,
}

/// One sender at a desk: its number, the tasks that it sent, and how many of their answers came
/// back.
#[derive(Drop)]
pub struct Client {
    sender: u32,
    sent: Vec<Task>,
    received: u32,
}

impl Model for Client {
    ghost use Rattle.std.specs.Prelude.{◌≤◌, length};
    ghost use Rattle.job_board.specs.Client.{ClientView};

    ghost Value = { ClientView };

    ghost view = { λ c. record { sender = c.sender; sent = c.sent.items; received = c.received } };

    ghost invariant = { λ c. c.received ≤ length c.sent.items };
}

impl Client {
    ghost use Rattle.job_board.specs.Client.{new_client, with_sent};
    ghost use Rattle.job_board.specs.Replies.{Submits, after_submit, deliver_reply};
    ghost use Rattle.job_board.specs.Turns.{IsNext, IsServed, TurnGives, LooksAt};

    /// A client of sender `sender`, counted from 0. It has sent nothing, and takes no memory
    /// yet.
    pub fn new(alloc: Global, sender: u32) -> Client
        ensures { result ≡ new_client sender }
    {
        Client {
            sender,
            sent: Vec::new(alloc),
            received: 0,
        }
    }

    /// The tasks that were accepted, in the order in which they were sent.
    pub fn sent(&self) -> &[Task]
        ensures { result.now ≡ self.now.sent }
    {
        self.sent.as_slice()
    }

    /// How many answers came back.
    pub fn received(&self) -> u32
        ensures { result ≡ self.now.received }
    {
        self.received
    }

    pub(crate) fn sender(&self) -> u32
        ensures { result ≡ self.now.sender }
    {
        self.sender
    }

    /// Submits a task to the board, and adds an accepted task to the client's list. `Memory` if
    /// memory for that list is refused, before the board is asked.
    pub(crate) fn send(&mut self, board: &mut Board, task: Task) -> Result<u32, SubmitFault>
        ensures ok { OnOk result (self.new ≡ with_sent task self.old) }
        ensures err { OnErr result (self.new ≡ self.old) }
        ensures lawful { result ≢ Err fault.Memory → Submits board.old self.old.sender result }
        ensures content { board.new ≡ after_submit board.old self.old.sender task result }
    {
        // The room comes first, since the board can't take an accepted task back.
        self.sent.reserve(1)?;
        let number = board.submit(self.sender, task)?;
        self.sent.push_reserved(task);
        Ok(number)
    }

    /// Asks the board for the client's next answer, and takes a job if the board replies
    /// `Waiting`. None if no job waits either: the client has to wait.
    pub(crate) fn look(&mut self, board: &mut Board) -> Option<Result<Turn, Mixed>>
        ensures ok { IfSome result (λ found. IfOk found (TurnGives self.old self.new)) }
        ensures err { IfSome result (λ found. OnErr found (self.new ≡ self.old)) }
        ensures waits { IfNone result (self.new ≡ self.old) }
        ensures hold { LooksAt
            board.old self.old (deliver_reply board.old self.old.sender) result board.new }
    {
        // By this law the number of a delivery is below 65,535, as `accept` requires.
        boards_have_contents(board);
        match board.deliver(self.sender) {
            Handed::Next(delivery) => Some(self.accept(delivery)),
            Handed::Drained => Some(self.check_drained()),
            Handed::NoSender => Some(Err(Mixed)),
            Handed::Waiting => {
                let job = board.take()?;
                Some(Ok(Turn::Work(job)))
            }
        }
    }

    // The task whose answer comes next. None if all tasks that were sent have their answers.
    fn awaited(&self) -> Option<Task>
        ensures { result ≡ slice_get self.now.sent self.now.received }
    {
        self.sent.get(self.received as usize).copied()
    }

    // Counts a delivery that is the client's next answer. `Mixed` for any other, which can come if
    // two clients share a sender.
    fn accept(&mut self, delivery: Delivery) -> Result<Turn, Mixed>
        requires { delivery.number < most_jobs }
        ensures ok { IfOk result (λ turn.
            (turn ≡ Next delivery) × TurnGives self.old self.new turn) }
        ensures err { OnErr result ((IsNext self.old delivery → ⊥) × (self.new ≡ self.old)) }
    {
        let Some(task) = self.awaited() else {
            return Err(Mixed);
        };
        if delivery.number != self.received || !is_answer_of(delivery.solved, task) {
            return Err(Mixed);
        }
        self.received += 1;
        Ok(Turn::Next(delivery))
    }

    // `Drained` if all answers came back, otherwise `Mixed`.
    fn check_drained(&self) -> Result<Turn, Mixed>
        ensures ok { IfOk result (λ turn. (turn ≡ Drained) × IsServed self.now) }
        ensures err { OnErr result (IsServed self.now → ⊥) }
    {
        if self.received as usize == self.sent.len() {
            Ok(Turn::Drained)
        } else {
            Err(Mixed)
        }
    }
}
