//! The six steps of a board, and lists of them.

ghost use Rattle.std.specs.Prelude.{◌≡◌, length, IfOk, OnErr};
ghost use Rattle.job_board.specs.Steps.{AreLawful, after_all};

use crate::board::Board;
use crate::faults::{JobFault, NoSender, SubmitFault};
use crate::jobs::{Handed, Job, JobId};
use endgame_search::{Solved, Task};
use std::alloc::{AllocError, Global};

/// A step of a board: the call of `Board` of that name, with its arguments. A `u32` is the number
/// of a sender, from 0. Any arguments are allowed, even a sender or a job that the board doesn't
/// have.
#[derive(Clone, Copy, PartialEq, Eq, Debug)]
pub enum Step {
    Submit(u32, Task),
    Take,
    Finish(JobId, Solved),
    GiveBack(JobId),
    Deliver(u32),
    Close(u32),
}

/// What the call of a step returns: `Submitted` of `Submit`, `Took` of `Take`, `Finished` of
/// `Finish`, `GaveBack` of `GiveBack`, `Handed` of `Deliver` and `Closed` of `Close`.
#[derive(Clone, Copy, PartialEq, Eq, Debug)]
pub enum Reply {
    Submitted(Result<u32, SubmitFault>),
    Took(Option<Job>),
    Finished(Result<(), JobFault>),
    GaveBack(Result<(), JobFault>),
    Handed(Handed),
    Closed(Result<bool, NoSender>),
}

/// Runs all steps in order, and returns one reply for each, in that order. Memory for the replies
/// is taken first: after `Err` no step was run. A submit that is refused memory has that refusal as
/// its reply, and the steps after it are run.
pub fn run_steps(alloc: Global, board: &mut Board, steps: &[Step]) -> Result<Vec<Reply>, AllocError>
    ensures one_each { IfOk result (λ replies. length replies.items ≡ length steps.now) }
    ensures lawful { IfOk result (λ replies. AreLawful board.old steps.now replies.items) }
    ensures content { IfOk result (λ replies.
        board.new ≡ after_all board.old steps.now replies.items) }
    ensures memory { OnErr result (board.new ≡ board.old) }
{
    let mut replies = Vec::with_capacity(alloc, steps.len())?;
    for step in steps {
        let reply = match *step {
            Step::Submit(sender, task) => Reply::Submitted(board.submit(sender, task)),
            Step::Take => Reply::Took(board.take()),
            Step::Finish(id, solved) => Reply::Finished(board.finish(id, solved)),
            Step::GiveBack(id) => Reply::GaveBack(board.give_back(id)),
            Step::Deliver(sender) => Reply::Handed(board.deliver(sender)),
            Step::Close(sender) => Reply::Closed(board.close(sender)),
        };
        replies.push_reserved(reply);
    }
    Ok(replies)
}
