//! The most senders of a board, and the most jobs of a sender.

use super::super::published::{MOST_JOBS, MOST_SENDERS};
use super::task_by;
use endgame_search::Task;
use job_board::{Board, BoardFault, SubmitFault};
use othello_rules::Scoring;
use std::alloc::{AllocError, Global};
use std::process::Abort;

// The reply to a submit. One that is refused memory changes nothing, and is made again.
fn submit(board: &mut Board, sender: u32, task: Task) -> Result<u32, SubmitFault> {
    let sent = board.submit(sender, task);
    if sent == Err(SubmitFault::Memory) {
        return board.submit(sender, task);
    }
    sent
}

// A board of the most senders, of which the last has `jobs` jobs. `Err` if the board is refused
// memory.
fn filled_board(
    rt: &impl Abort,
    alloc: Global,
    task: Task,
    jobs: u32,
) -> Result<Board, AllocError> {
    let Ok(mut board) = Board::new(alloc, MOST_SENDERS) else {
        return Err(AllocError);
    };
    for number in 0..jobs {
        assert!(rt; submit(&mut board, MOST_SENDERS - 1, task) == Ok(number));
    }
    Ok(board)
}

// A full sender that is closed is closed, and no longer full. Another sender is not full.
#[test]
fn most_senders_and_jobs(rt: HostRuntime) -> Result<(), AllocError> {
    let task = task_by(&rt, (0, 0), Scoring::Winner);
    let mut board = filled_board(&rt, rt.alloc(), task, MOST_JOBS)?;
    let last = MOST_SENDERS - 1;
    assert!(rt; board.submit(last, task) == Err(SubmitFault::Full));
    assert!(rt; board.submit(MOST_SENDERS, task) == Err(SubmitFault::NoSender));
    assert!(rt; board.close(last) == Ok(true));
    assert!(rt; board.submit(last, task) == Err(SubmitFault::Closed));
    assert!(rt; submit(&mut board, last - 1, task) == Ok(0));
    let too_many = Board::new(rt.alloc(), MOST_SENDERS + 1).err();
    assert!(rt; too_many == Some(BoardFault::TooManySenders));
    Ok(())
}
