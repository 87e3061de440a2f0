//! Many threads at one desk: some send jobs and receive the answers, others solve jobs, and one
//! gives its first job back and ends. Each client receives its answers in order. A test whose wake-up
//! is lost does not end, and `rt` ends it.

use super::{
    CORNER_LEFT_OVER, EQUAL_CORNERS, LAST_CORNER, SECOND, UNEQUAL_CORNERS, finishes, gives_back,
    sends, solved, task_of,
};
use endgame_search::Task;
use job_board::{Client, Desk, Job, JobId, Turn};
use std::alloc::{AllocError, Global};
use std::process::Abort;
use std::sync::Wait;
use std::thread;
use std::thread::Threads;

// A thread gives back a job whose number is a multiple of this, unless it gave this job back last.
const GIVEN_BACK: u32 = 7;

// The tasks that each client sends in turn, and how many jobs each client sends.
#[derive(Clone, Copy)]
struct Load {
    tasks: [Task; 4],
    jobs: u32,
}

fn load_of(rt: &impl Abort, jobs: u32) -> Load {
    let tasks = [
        task_of(rt, CORNER_LEFT_OVER),
        task_of(rt, EQUAL_CORNERS),
        task_of(rt, UNEQUAL_CORNERS),
        task_of(rt, LAST_CORNER),
    ];
    Load { tasks, jobs }
}

fn task_at(load: &Load, number: u32) -> Task {
    load.tasks[number as usize % 4]
}

#[derive(Drop)]
struct Crowd {
    desk: Desk,
    load: Load,
}

// Takes a job, gives it back and ends.
fn leave<R: Wait>(rt: &R, crowd: &Crowd) -> bool {
    match crowd.desk.take_or_wait(rt) {
        Some(job) => gives_back(rt, &crowd.desk, job.id),
        None => true,
    }
}

// Gives the job back, or finishes it. `last` is the job that the thread gave back last.
fn serve<R: Wait>(rt: &R, crowd: &Crowd, job: Job, last: &mut JobId) -> bool {
    if job.id.number % GIVEN_BACK == 0 && *last != job.id {
        *last = job.id;
        return gives_back(rt, &crowd.desk, job.id);
    }
    finishes(rt, &crowd.desk, job)
}

// Whether the board accepted each job that the worker took, finished or given back.
fn work<R: Wait>(rt: &R, crowd: &Crowd) -> bool {
    let mut last = SECOND;
    for _ in rt.forever() {
        let Some(job) = crowd.desk.take_or_wait(rt) else {
            return true;
        };
        if !serve(rt, crowd, job, &mut last) {
            return false;
        }
    }
    unreachable!()
}

// Sends the tasks in turn, and closes the sender.
fn send_all<R: Wait>(rt: &R, crowd: &Crowd, client: &mut Client) -> bool {
    for number in 0..crowd.load.jobs {
        if !sends(
            rt,
            &crowd.desk,
            client,
            task_at(&crowd.load, number),
            number,
        ) {
            return false;
        }
    }
    crowd.desk.close(rt, client) == Ok(true)
}

// Whether the answers are those of the tasks, in their order, up to the end.
fn receive_all<R: Wait>(rt: &R, crowd: &Crowd, client: &mut Client) -> bool {
    let mut last = SECOND;
    let mut received = 0;
    for _ in rt.forever() {
        let goes_on = match crowd.desk.turn(rt, client) {
            Ok(Turn::Next(next)) => {
                let wanted = solved(task_at(&crowd.load, received));
                let found = next.number == received && next.solved == wanted;
                received = received.wrapping_add(1);
                found
            }
            Ok(Turn::Work(job)) => serve(rt, crowd, job, &mut last),
            Ok(Turn::Drained) => return received == crowd.load.jobs,
            Err(_) => false,
        };
        if !goes_on {
            return false;
        }
    }
    unreachable!()
}

// The work of a thread: thread 1 gives a job back and ends; of the others, thread 0 and the odd
// ones are clients, and the even ones are workers.
fn play<R: Wait>(rt: &R, alloc: Global, crowd: &Crowd, thread: u32) -> bool {
    if thread == 1 {
        return leave(rt, crowd);
    }
    if thread > 0 && thread % 2 == 0 {
        return work(rt, crowd);
    }
    let mut client = Client::new(alloc, thread / 2);
    send_all(rt, crowd, &mut client) && receive_all(rt, crowd, &mut client)
}

// Whether the work of each thread passes, at a desk with a sender for each client.
fn are_served<R: Threads + Wait + Sync>(
    rt: &R,
    alloc: Global,
    load: Load,
    threads: u32,
) -> Result<bool, AllocError> {
    let Ok(desk) = Desk::new(alloc, threads / 2) else {
        return Err(AllocError);
    };
    let crowd = Crowd { desk, load };
    let served = thread::map_indices(
        rt,
        alloc,
        threads as usize,
        &|thread| play(rt, alloc, &crowd, thread as u32),
    )?;
    Ok(!served.contains(&false))
}

#[test]
fn two_to_eight_threads(rt: HostRuntime) -> Result<(), AllocError> {
    let load = load_of(&rt, 500);
    for threads in 2..=8 {
        assert!(rt; are_served(&rt, rt.alloc(), load, threads)?);
    }
    Ok(())
}
