//! Why a call of a board, a desk or a client is refused.

ghost use Rattle.std.specs.Prelude.{◌≡◌};
ghost use Rattle.job_board.specs.declared.faults.SubmitFault.TheVariants.{Memory};

use std::alloc::AllocError;
use thiserror::Error;

/// Why a board can't be made.
#[derive(Clone, Copy, PartialEq, Eq, Debug, Error)]
pub enum BoardFault {
    /// More than 64 senders were asked for.
    #[error("more than 64 senders")]
    TooManySenders,
    /// Memory for the senders was refused.
    #[error("out of memory")]
    Memory,
}

/// Why a task is not accepted. If several apply, `Board::submit` returns the first of these.
/// `Desk::submit` returns `Memory` before the others if memory for the client's list is refused.
#[derive(Clone, Copy, PartialEq, Eq, Debug, Error)]
pub enum SubmitFault {
    /// The board has no sender of that number.
    #[error("no such sender")]
    NoSender,
    /// The sender was closed.
    #[error("the sender is closed")]
    Closed,
    /// The sender has 65,535 jobs, the most that it may have.
    #[error("more than 65535 jobs")]
    Full,
    /// Memory for one more job was refused.
    #[error("out of memory")]
    Memory,
}

impl From<AllocError> for SubmitFault {
    ghost from_gives = { λ _ fault. fault ≡ Memory };

    fn from(_error: AllocError) -> SubmitFault {
        SubmitFault::Memory
    }
}

/// Why a job is not finished or given back.
#[derive(Clone, Copy, PartialEq, Eq, Debug, Error)]
pub enum JobFault {
    /// The job is unknown, waiting or finished.
    #[error("the job is not taken")]
    NotTaken,
    /// The job is taken, and the answer is that of another position or of another scoring.
    #[error("the answer is of another position")]
    OtherPosition,
}

/// The board has no sender of that number.
#[derive(Clone, Copy, PartialEq, Eq, Debug, Error)]
#[error("no such sender")]
pub struct NoSender;

/// The board's reply does not fit the client. It is an answer that is not the client's next; or
/// `Drained` before the client has all answers; or the board has no such sender. This can happen
/// if two clients share one sender.
#[derive(Clone, Copy, PartialEq, Eq, Debug, Error)]
#[error("answers mixed")]
pub struct Mixed;
