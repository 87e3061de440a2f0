//! Threads that help where they would wait. All of them are played by one thread.

use super::{FIRST, SECOND, TWO_EMPTY_ROWS, UNEQUAL_CORNERS, finishes, gives_back, sends, task_of};
use job_board::{Client, Desk, Errand, Job, JobId, Turn};
use std::sync::Wait;
use std::test::Fail;

const THIRD: JobId = JobId {
    sender: 0,
    number: 2,
};

// The job that a worker takes, if it takes one.
fn taken<R: Wait>(rt: &R, desk: &Desk) -> Option<JobId> {
    match desk.take_or_help(rt, 0)? {
        Errand::Own(job) => Some(job.id),
        Errand::Help(_) => None,
    }
}

// The job that a worker gets to help with after that of place `helped`, and its place.
fn helps<R: Wait>(rt: &R, desk: &Desk, helped: u64) -> Option<(JobId, u64)> {
    match desk.take_or_help(rt, helped)? {
        Errand::Own(_) => None,
        Errand::Help(shared) => Some((shared.job.id, shared.place)),
    }
}

// A worker takes what waits. Where it would wait, it helps with the taken jobs of many empty squares, in
// the order in which they were taken, with each once, and with none that was finished or given back.
#[test]
fn workers_help(rt: HostRuntime) -> Result<(), Fail> {
    let (wide, few) = (task_of(&rt, TWO_EMPTY_ROWS), task_of(&rt, UNEQUAL_CORNERS));
    let desk = Desk::new(rt.alloc(), 1)?;
    let mut client = Client::new(rt.alloc(), 0);
    assert!(rt; sends(&rt, &desk, &mut client, wide, 0) && sends(&rt, &desk, &mut client, few, 1));
    assert!(rt; sends(&rt, &desk, &mut client, wide, 2));
    for id in [FIRST, THIRD, SECOND] {
        assert!(rt; taken(&rt, &desk) == Some(id));
    }
    assert!(rt; helps(&rt, &desk, 0) == Some((FIRST, 1)));
    assert!(rt; helps(&rt, &desk, 1) == Some((THIRD, 2)));
    assert!(rt; gives_back(&rt, &desk, FIRST) && taken(&rt, &desk) == Some(FIRST));
    assert!(rt; helps(&rt, &desk, 0) == Some((THIRD, 2)));
    assert!(rt; helps(&rt, &desk, 2) == Some((FIRST, 3)));
    assert!(rt;
        finishes(
            &rt,
            &desk,
            Job {
                id: THIRD,
                task: wide
            }
        )
    );
    assert!(rt; helps(&rt, &desk, 0) == Some((FIRST, 3)));
    assert!(rt;
        finishes(
            &rt,
            &desk,
            Job {
                id: FIRST,
                task: wide
            }
        )
    );
    assert!(rt;
        finishes(
            &rt,
            &desk,
            Job {
                id: SECOND,
                task: few
            }
        )
    );
    assert!(rt; desk.close(&rt, &client) == Ok(true) && desk.take_or_help(&rt, 0).is_none());
    Ok(())
}

// The number of the answer that a client's turn returns, if it returns one.
fn receives<R: Wait>(rt: &R, desk: &Desk, client: &mut Client, helped: u64) -> Option<u32> {
    match desk.turn_or_help(rt, client, helped) {
        Ok(Errand::Own(Turn::Next(next))) => Some(next.number),
        _ => None,
    }
}

// A client helps with its own first job, which another thread has taken and finishes. It then receives
// its answers in order, up to the end.
#[test]
fn clients_help(rt: HostRuntime) -> Result<(), Fail> {
    let (wide, few) = (task_of(&rt, TWO_EMPTY_ROWS), task_of(&rt, UNEQUAL_CORNERS));
    let desk = Desk::new(rt.alloc(), 1)?;
    let mut client = Client::new(rt.alloc(), 0);
    assert!(rt; sends(&rt, &desk, &mut client, wide, 0) && sends(&rt, &desk, &mut client, few, 1));
    assert!(rt; taken(&rt, &desk) == Some(FIRST));
    let (first, second) = (
        Job {
            id: FIRST,
            task: wide,
        },
        Job {
            id: SECOND,
            task: few,
        },
    );
    let work = desk.turn_or_help(&rt, &mut client, 0);
    assert!(rt; work == Ok(Errand::Own(Turn::Work(second))));
    let help = desk.turn_or_help(&rt, &mut client, 0);
    assert!(rt; matches!(help, Ok(Errand::Help(shared)) if shared.job == first));
    assert!(rt; finishes(&rt, &desk, second) && finishes(&rt, &desk, first));
    for number in [0, 1] {
        assert!(rt; receives(&rt, &desk, &mut client, 1) == Some(number));
    }
    assert!(rt; desk.close(&rt, &client) == Ok(true));
    let end = desk.turn_or_help(&rt, &mut client, 1);
    assert!(rt; end == Ok(Errand::Own(Turn::Drained)));
    Ok(())
}
