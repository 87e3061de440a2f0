//! Three senders with two jobs each: once all are submitted, no step takes memory. A submit that is
//! refused memory ends the test; a step that asked for memory could not report it. So
//! `tests/test_crates.py` refuses each request in turn, and sees each refusal end the test.

use super::{CORNER_LEFT_OVER, LAST_CORNER, UNEQUAL_CORNERS, solved, task_of};
use endgame_search::Task;
use job_board::{Board, Delivery, Handed, Job, JobId, SubmitFault};
use std::alloc::{AllocError, Global};

// The sender and the number of a job.
type Name = (u32, u32);

const AS_SUBMITTED: &[Name] = &[(0, 0), (1, 0), (2, 0), (0, 1), (1, 1), (2, 1)];

// The jobs with two empty squares by their senders, and then those with one.
const AS_TAKEN: &[Name] = &[(0, 0), (0, 1), (1, 0), (2, 1), (1, 1), (2, 0)];

fn job_of(name: Name, tasks: &[Task; 3]) -> Job {
    let (sender, number) = name;
    Job {
        id: JobId { sender, number },
        task: tasks[(sender as usize + number as usize) % 3],
    }
}

// Whether each submit has its number. `Err` if one is refused memory.
fn are_submitted(board: &mut Board, tasks: &[Task; 3]) -> Result<bool, AllocError> {
    for name in AS_SUBMITTED {
        let (sender, number) = *name;
        let sent = board.submit(sender, job_of(*name, tasks).task);
        if sent == Err(SubmitFault::Memory) {
            return Err(AllocError);
        }
        if sent != Ok(number) {
            return Ok(false);
        }
    }
    Ok(true)
}

fn are_taken(board: &mut Board, tasks: &[Task; 3]) -> bool {
    for name in AS_TAKEN {
        if board.take() != Some(job_of(*name, tasks)) {
            return false;
        }
    }
    board.take() == None
}

fn are_given_back(board: &mut Board, tasks: &[Task; 3]) -> bool {
    for name in AS_SUBMITTED {
        if board.give_back(job_of(*name, tasks).id) != Ok(()) {
            return false;
        }
    }
    true
}

fn are_finished(board: &mut Board, tasks: &[Task; 3]) -> bool {
    for name in AS_SUBMITTED {
        let job = job_of(*name, tasks);
        if board.finish(job.id, solved(job.task)) != Ok(()) {
            return false;
        }
    }
    true
}

fn are_delivered(board: &mut Board, tasks: &[Task; 3]) -> bool {
    for name in AS_SUBMITTED {
        let (sender, number) = *name;
        let solved = solved(job_of(*name, tasks).task);
        if board.deliver(sender) != Handed::Next(Delivery { number, solved }) {
            return false;
        }
    }
    true
}

fn are_drained(board: &mut Board) -> bool {
    for sender in 0..3 {
        if board.close(sender) != Ok(true) || board.deliver(sender) != Handed::Drained {
            return false;
        }
    }
    board.is_done()
}

// Whether all steps have their replies at a new board. `Err` if the board or a submit is refused
// memory.
fn are_served(alloc: Global, tasks: &[Task; 3]) -> Result<bool, AllocError> {
    let Ok(mut board) = Board::new(alloc, 3) else {
        return Err(AllocError);
    };
    Ok(
        are_submitted(&mut board, tasks)?
            && are_taken(&mut board, tasks)
            && are_given_back(&mut board, tasks)
            && are_taken(&mut board, tasks)
            && are_finished(&mut board, tasks)
            && are_delivered(&mut board, tasks)
            && are_drained(&mut board),
    )
}

#[test]
fn no_step_after_the_last_submit_takes_memory(rt: HostRuntime) -> Result<(), AllocError> {
    let tasks = [
        task_of(&rt, CORNER_LEFT_OVER),
        task_of(&rt, UNEQUAL_CORNERS),
        task_of(&rt, LAST_CORNER),
    ];
    assert!(rt; are_served(rt.alloc(), &tasks)?);
    Ok(())
}
