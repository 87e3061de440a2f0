//! Lists of steps with the replies of the definitions, and whether all is done after each.

use super::{
    CORNER_LEFT_OVER, EQUAL_CORNERS, FIRST, LAST_CORNER, SECOND, UNEQUAL_CORNERS, solved, task_by,
    task_of,
};
use endgame_search::Task;
use job_board::{
    Board, Delivery, Handed, Job, JobFault, JobId, NoSender, Reply, Step, SubmitFault, run_steps,
};
use othello_rules::Scoring;
use std::alloc::{AllocError, Global};
use std::process::Abort;

// A step, its reply, and whether the board is done after it.
type Row = (Step, Reply, bool);

// How many rows are as the board replies, each step by itself. `Err` if memory is refused.
fn count_right(alloc: Global, senders: u32, rows: &[Row]) -> Result<usize, AllocError> {
    let Ok(mut board) = Board::new(alloc, senders) else {
        return Err(AllocError);
    };
    let mut right: usize = 0;
    for (step, reply, is_done) in rows {
        let replies = run_steps(alloc, &mut board, &[*step])?;
        if replies.contains(&Reply::Submitted(Err(SubmitFault::Memory))) {
            return Err(AllocError);
        }
        if replies.as_slice() != [*reply].as_slice() || board.is_done() != *is_done {
            return Ok(right);
        }
        right = right.saturating_add(1);
    }
    Ok(right)
}

// Whether the board replies as the rows say, and in the same way to all steps at once.
fn are_right(alloc: Global, senders: u32, rows: &[Row]) -> Result<bool, AllocError> {
    let Ok(mut board) = Board::new(alloc, senders) else {
        return Err(AllocError);
    };
    let mut steps = Vec::new(alloc);
    let mut wanted = Vec::new(alloc);
    for (step, reply, _) in rows {
        steps.push(*step)?;
        wanted.push(*reply)?;
    }
    let replies = run_steps(alloc, &mut board, &steps)?;
    if replies.contains(&Reply::Submitted(Err(SubmitFault::Memory))) {
        return Err(AllocError);
    }
    Ok(replies == wanted && count_right(alloc, senders, rows)? == rows.len())
}

fn id_of(sender: u32, number: u32) -> JobId {
    JobId { sender, number }
}

// The reply to a take that returns this job.
fn took(id: JobId, task: Task) -> Reply {
    Reply::Took(Some(Job { id, task }))
}

// The reply to a deliver that returns the answer of `task` with this number.
fn next(number: u32, task: Task) -> Reply {
    let solved = solved(task);
    Reply::Handed(Handed::Next(Delivery { number, solved }))
}

const WAITING: Reply = Reply::Handed(Handed::Waiting);

const DRAINED: Reply = Reply::Handed(Handed::Drained);

const NOT_TAKEN: JobFault = JobFault::NotTaken;

#[test]
fn two_jobs_of_one_sender(rt: HostRuntime) -> Result<(), AllocError> {
    let first = task_of(&rt, CORNER_LEFT_OVER);
    let second = task_of(&rt, EQUAL_CORNERS);
    let other = solved(task_by(&rt, CORNER_LEFT_OVER, Scoring::Discs));
    let rows = [
        (Step::Submit(0, first), Reply::Submitted(Ok(0)), false),
        // A refused submit takes no number.
        (
            Step::Submit(1, second),
            Reply::Submitted(Err(SubmitFault::NoSender)),
            false,
        ),
        (Step::Submit(0, second), Reply::Submitted(Ok(1)), false),
        (Step::Take, took(FIRST, first), false),
        (Step::Take, took(SECOND, second), false),
        (Step::Take, Reply::Took(None), false),
        (
            Step::Finish(SECOND, solved(second)),
            Reply::Finished(Ok(())),
            false,
        ),
        (Step::Deliver(0), WAITING, false),
        // The answer of another position, and the answer under another scoring.
        (
            Step::Finish(FIRST, solved(second)),
            Reply::Finished(Err(JobFault::OtherPosition)),
            false,
        ),
        (
            Step::Finish(FIRST, other),
            Reply::Finished(Err(JobFault::OtherPosition)),
            false,
        ),
        (
            Step::Finish(FIRST, solved(first)),
            Reply::Finished(Ok(())),
            false,
        ),
        (Step::Deliver(0), next(0, first), false),
        (Step::Deliver(0), next(1, second), false),
        (Step::Deliver(0), WAITING, false),
        (Step::Close(0), Reply::Closed(Ok(true)), true),
        (Step::Deliver(0), DRAINED, true),
    ];
    assert!(rt; are_right(rt.alloc(), 1, &rows)?);
    Ok(())
}

#[test]
fn a_job_after_the_close(rt: HostRuntime) -> Result<(), AllocError> {
    let task = task_of(&rt, UNEQUAL_CORNERS);
    let closed = Reply::Submitted(Err(SubmitFault::Closed));
    let rows = [
        (Step::Submit(0, task), Reply::Submitted(Ok(0)), false),
        (
            Step::Finish(FIRST, solved(task)),
            Reply::Finished(Err(NOT_TAKEN)),
            false,
        ),
        (Step::Take, took(FIRST, task), false),
        (Step::Close(0), Reply::Closed(Ok(true)), false),
        (Step::Submit(0, task), closed, false),
        (Step::GiveBack(FIRST), Reply::GaveBack(Ok(())), false),
        (
            Step::GiveBack(FIRST),
            Reply::GaveBack(Err(NOT_TAKEN)),
            false,
        ),
        (Step::Take, took(FIRST, task), false),
        (
            Step::Finish(FIRST, solved(task)),
            Reply::Finished(Ok(())),
            true,
        ),
        (
            Step::Finish(FIRST, solved(task)),
            Reply::Finished(Err(NOT_TAKEN)),
            true,
        ),
        (Step::GiveBack(FIRST), Reply::GaveBack(Err(NOT_TAKEN)), true),
        (Step::Deliver(0), next(0, task), true),
        (Step::Deliver(0), DRAINED, true),
        (Step::Close(0), Reply::Closed(Ok(false)), true),
        (Step::Submit(0, task), closed, true),
        (
            Step::Submit(1, task),
            Reply::Submitted(Err(SubmitFault::NoSender)),
            true,
        ),
        (Step::Deliver(1), Reply::Handed(Handed::NoSender), true),
        (Step::Close(1), Reply::Closed(Err(NoSender)), true),
    ];
    assert!(rt; are_right(rt.alloc(), 1, &rows)?);
    Ok(())
}

// The most empty squares first, then the first sender, then the least number.
#[test]
fn the_longest_job_is_taken_first(rt: HostRuntime) -> Result<(), AllocError> {
    let short = task_of(&rt, LAST_CORNER);
    let (long, other) = (
        task_of(&rt, UNEQUAL_CORNERS),
        task_of(&rt, CORNER_LEFT_OVER),
    );
    let rows = [
        (Step::Deliver(1), WAITING, false),
        (Step::Submit(1, long), Reply::Submitted(Ok(0)), false),
        (Step::Submit(0, other), Reply::Submitted(Ok(0)), false),
        (Step::Submit(0, short), Reply::Submitted(Ok(1)), false),
        (Step::Take, took(id_of(0, 0), other), false),
        (Step::Take, took(id_of(1, 0), long), false),
        (Step::Take, took(id_of(0, 1), short), false),
        (Step::Take, Reply::Took(None), false),
        (Step::GiveBack(id_of(1, 0)), Reply::GaveBack(Ok(())), false),
        (Step::GiveBack(id_of(0, 0)), Reply::GaveBack(Ok(())), false),
        (Step::Take, took(id_of(0, 0), other), false),
        (Step::Take, took(id_of(1, 0), long), false),
    ];
    assert!(rt; are_right(rt.alloc(), 2, &rows)?);
    let rows = [
        (Step::Submit(0, short), Reply::Submitted(Ok(0)), false),
        (Step::Submit(0, long), Reply::Submitted(Ok(1)), false),
        (Step::Submit(0, other), Reply::Submitted(Ok(2)), false),
        (Step::Take, took(id_of(0, 1), long), false),
        (Step::Take, took(id_of(0, 2), other), false),
        (Step::Take, took(id_of(0, 0), short), false),
        // The sender without jobs is done once it is closed.
        (Step::Close(1), Reply::Closed(Ok(true)), false),
        (Step::Deliver(1), DRAINED, false),
    ];
    assert!(rt; are_right(rt.alloc(), 2, &rows)?);
    Ok(())
}

// Whether a job is taken before another one.
fn is_before(first: &Job, second: &Job) -> bool {
    let (more, fewer) = (first.task.pos().empties(), second.task.pos().empties());
    let (a, b) = (first.id, second.id);
    let is_earlier = a.sender < b.sender || a.sender == b.sender && a.number < b.number;
    more > fewer || more == fewer && is_earlier
}

// Submits twenty tasks of each of three senders, with 1 to 13 empty squares.
fn are_submitted(rt: &impl Abort, board: &mut Board) -> Result<bool, AllocError> {
    for number in 0..20u32 {
        for sender in 0..3u32 {
            let empties = u64::MAX >> (51 + (number * 7 + sender * 5) % 13);
            let sent = board.submit(sender, task_by(rt, (empties, 0), Scoring::Winner));
            if sent == Err(SubmitFault::Memory) {
                return Err(AllocError);
            }
            if sent != Ok(number) {
                return Ok(false);
            }
        }
    }
    Ok(true)
}

// At most this many of the waiting jobs, as they are taken.
fn taken_jobs(alloc: Global, board: &mut Board, most: u32) -> Result<Vec<Job>, AllocError> {
    let mut jobs = Vec::new(alloc);
    for _ in 0..most {
        if let Some(job) = board.take() {
            jobs.push(job)?;
        }
    }
    Ok(jobs)
}

fn are_in_order(jobs: &[Job]) -> bool {
    for i in 1..jobs.len() {
        if !is_before(&jobs[i - 1], &jobs[i]) {
            return false;
        }
    }
    true
}

#[test]
fn many_jobs_are_taken_in_order(rt: HostRuntime) -> Result<(), AllocError> {
    let Ok(mut board) = Board::new(rt.alloc(), 3) else {
        return Err(AllocError);
    };
    assert!(rt; are_submitted(&rt, &mut board)?);
    let jobs = taken_jobs(rt.alloc(), &mut board, 100)?;
    assert!(rt; jobs.len() == 60 && are_in_order(&jobs));
    Ok(())
}
