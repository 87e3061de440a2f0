//! A desk on one thread.

use super::{
    CORNER_LEFT_OVER, EQUAL_CORNERS, FIRST, LAST_CORNER, SECOND, finishes, gives_back, sends,
    solved, submit, task_of, turns_to,
};
use endgame_search::Task;
use job_board::{Client, Delivery, Desk, Job, JobFault, JobId, Mixed, NoSender, SubmitFault, Turn};
use std::alloc::{AllocError, Global};
use std::sync::Wait;

// A call at a desk about a job, and its answer.
#[derive(Clone, Copy)]
enum Call {
    // A submit of the job's task, which gets the job's number.
    Send,
    // A submit that is refused with this fault.
    Refused(SubmitFault),
    // A turn that returns the job to solve.
    Work,
    // A turn that returns the job's answer.
    Next,
    // A turn that returns `Drained`, or the fault `Mixed`.
    Drained,
    Mixed,
    Finish,
    // A finish that is refused with this fault.
    Unfinished(JobFault),
    // A finish by the answer of another position.
    FinishByOther,
    GiveBack,
    // A give back of a job that is not taken.
    NotTaken,
    // No job is left to take.
    AllDone,
    Close(Result<bool, NoSender>),
}

// A job that the sender doesn't have.
const THIRD: JobId = JobId {
    sender: 0,
    number: 2,
};

// Calls with their jobs, in the order in which they are made.
type Calls = &'static [(Call, JobId)];

// The calls of two clients at a desk of one sender: first those of a client of sender 0, then those
// of a client of `sender`.
#[derive(Clone, Copy)]
struct Case {
    first: Calls,
    sender: u32,
    calls: Calls,
    // Whether the second client sent two tasks and received both answers.
    served: bool,
}

// A client sends two tasks and receives their answers.
const SERVED: Case = Case {
    first: &[],
    sender: 0,
    calls: &[
        (Call::Send, FIRST),
        (Call::Send, SECOND),
        (Call::Close(Ok(true)), FIRST),
        (Call::Work, FIRST),
        (Call::Work, SECOND),
        (Call::GiveBack, FIRST),
        (Call::NotTaken, FIRST),
        (Call::Work, FIRST),
        (Call::GiveBack, SECOND),
        (Call::Finish, FIRST),
        (Call::Next, FIRST),
        (Call::Work, SECOND),
        (Call::Finish, SECOND),
        (Call::Next, SECOND),
        (Call::Drained, FIRST),
        (Call::AllDone, FIRST),
        (Call::Close(Ok(false)), FIRST),
        (Call::Refused(SubmitFault::Closed), THIRD),
    ],
    served: true,
};

// Each call of a client whose sender the desk doesn't have is refused.
const REFUSED: Case = Case {
    first: &[],
    sender: 1,
    calls: &[
        (Call::Refused(SubmitFault::NoSender), FIRST),
        (Call::Close(Err(NoSender)), FIRST),
        (Call::Mixed, FIRST),
    ],
    served: false,
};

// Two clients have one sender: a turn of the second returns `Mixed`.
const MIXED: Case = Case {
    first: &[(Call::Send, FIRST)],
    sender: 0,
    calls: &[
        (Call::Send, SECOND),
        (Call::Work, FIRST),
        (Call::Finish, FIRST),
        (Call::Mixed, FIRST),
    ],
    served: false,
};

// A job that is unknown, waits or is finished is not taken.
const UNFINISHED: Case = Case {
    first: &[],
    sender: 0,
    calls: &[
        (Call::Unfinished(JobFault::NotTaken), FIRST),
        (Call::Send, FIRST),
        (Call::Unfinished(JobFault::NotTaken), FIRST),
        (Call::Work, FIRST),
        (Call::FinishByOther, FIRST),
        (Call::Finish, FIRST),
        (Call::Unfinished(JobFault::NotTaken), FIRST),
    ],
    served: false,
};

fn next_of(number: u32, task: Task) -> Turn {
    let solved = solved(task);
    Turn::Next(Delivery { number, solved })
}

// Makes a call about this job. Returns whether its answer is the one that the call names. `other` is
// a task that no client sends.
fn is_answered<R: Wait>(
    rt: &R,
    desk: &Desk,
    client: &mut Client,
    call: Call,
    job: Job,
    other: Task,
) -> bool {
    match call {
        Call::Send => sends(rt, desk, client, job.task, job.id.number),
        Call::Refused(fault) => submit(rt, desk, client, job.task) == Err(fault),
        Call::Work => turns_to(rt, desk, client, Turn::Work(job)),
        Call::Next => turns_to(rt, desk, client, next_of(job.id.number, job.task)),
        Call::Drained => turns_to(rt, desk, client, Turn::Drained),
        Call::Mixed => desk.turn(rt, client) == Err(Mixed),
        Call::Finish => finishes(rt, desk, job),
        Call::Unfinished(fault) => desk.finish(rt, job.id, solved(job.task)) == Err(fault),
        Call::FinishByOther => {
            desk.finish(rt, job.id, solved(other)) == Err(JobFault::OtherPosition)
        }
        Call::GiveBack => gives_back(rt, desk, job.id),
        Call::NotTaken => desk.give_back(rt, job.id) == Err(JobFault::NotTaken),
        Call::AllDone => desk.take_or_wait(rt).is_none(),
        Call::Close(closed) => desk.close(rt, client) == closed,
    }
}

fn are_answered<R: Wait>(
    rt: &R,
    desk: &Desk,
    client: &mut Client,
    calls: Calls,
    tasks: &[Task; 3],
) -> bool {
    for (call, id) in calls {
        let task = tasks[id.number as usize % 3];
        if !is_answered(rt, desk, client, *call, Job { id: *id, task }, tasks[2]) {
            return false;
        }
    }
    true
}

fn is_served(client: &Client, tasks: &[Task; 3]) -> bool {
    client.sent() == &tasks[..2] && client.received() == 2
}

// A new desk of one sender, where memory may be refused once.
fn desk_of_one(alloc: Global) -> Option<Desk> {
    if let Ok(desk) = Desk::new(alloc, 1) {
        return Some(desk);
    }
    Desk::new(alloc, 1).ok()
}

// Whether the calls of the case have their answers at a new desk.
fn passes<R: Wait>(rt: &R, alloc: Global, case: &Case, tasks: &[Task; 3]) -> bool {
    let Some(desk) = desk_of_one(alloc) else {
        return false;
    };
    let mut first = Client::new(alloc, 0);
    let mut client = Client::new(alloc, case.sender);
    are_answered(rt, &desk, &mut first, case.first, tasks)
        && are_answered(rt, &desk, &mut client, case.calls, tasks)
        && is_served(&client, tasks) == case.served
}

#[test]
fn a_desk_on_one_thread(rt: HostRuntime) {
    let tasks = [
        task_of(&rt, CORNER_LEFT_OVER),
        task_of(&rt, EQUAL_CORNERS),
        task_of(&rt, LAST_CORNER),
    ];
    for case in &[SERVED, REFUSED, MIXED, UNFINISHED] {
        assert!(rt; passes(&rt, rt.alloc(), case, &tasks));
    }
}

// Whether a new client's submit is refused with this fault. `Err` if memory is refused; that is
// tested first.
fn is_refused<R: Wait>(
    rt: &R,
    desk: &Desk,
    mut client: Client,
    task: Task,
    fault: SubmitFault,
) -> Result<bool, AllocError> {
    match desk.submit(rt, &mut client, task) {
        Err(SubmitFault::Memory) => Err(AllocError),
        sent => Ok(sent == Err(fault)),
    }
}

// Submits for a sender that is closed and for a sender that the desk doesn't have. Each asks for
// memory for the client's list before it asks the board, so each is `Memory` if that is refused.
#[test]
fn a_clients_memory_comes_first(rt: HostRuntime) -> Result<(), AllocError> {
    let alloc = rt.alloc();
    let task = task_of(&rt, LAST_CORNER);
    let Ok(desk) = Desk::new(alloc, 1) else {
        return Err(AllocError);
    };
    let closed = Client::new(alloc, 0);
    assert!(rt; desk.close(&rt, &closed) == Ok(true));
    assert!(rt; is_refused(&rt, &desk, closed, task, SubmitFault::Closed)?);
    let unknown = Client::new(alloc, 1);
    assert!(rt; is_refused(&rt, &desk, unknown, task, SubmitFault::NoSender)?);
    Ok(())
}
