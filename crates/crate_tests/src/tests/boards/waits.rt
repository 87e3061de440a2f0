//! A thread that waits at a desk is woken. A test whose wake-up is lost does not end, and `rt` ends it.

use super::{
    FIRST, Masks, TWO_EMPTY_ROWS, UNEQUAL_CORNERS, finishes, gives_back, sends, solved, task_of,
    turns_to,
};
use endgame_search::Task;
use job_board::{Client, Delivery, Desk, Errand, Job, Turn};
use std::alloc::{AllocError, Global};
use std::sync::{Mutex, Wait};
use std::thread;
use std::thread::Threads;
use std::time::{Clock, Duration};

// A call at a desk that lets another thread go on.
#[derive(Clone, Copy)]
enum Event {
    // A worker waits for a job.
    Submit,
    GiveBack,
    // The same, while all senders are closed.
    LastGiveBack,
    // A client waits for its answer.
    Finish,
    // A client waits for its end.
    Close,
}

const EVENTS: &[Event] = &[
    Event::Submit,
    Event::GiveBack,
    Event::LastGiveBack,
    Event::Finish,
    Event::Close,
];

// The job that threads wait for, and after which place they help: None if they don't.
const WAYS: &[(Masks, Option<u64>)] = &[
    (UNEQUAL_CORNERS, None),
    // The job has too few empty squares for threads to help.
    (UNEQUAL_CORNERS, Some(0)),
    // A job with which the threads have helped.
    (TWO_EMPTY_ROWS, Some(1)),
];

// One thread waits at the desk for the event, and says when it goes on.
#[derive(Drop)]
struct Scene {
    desk: Desk,
    // After which place the threads help where they would wait. None if they don't.
    helped: Option<u64>,
    // The client of the thread that waits.
    client: Mutex<Client>,
    // The client's first job.
    job: Job,
    event: Event,
}

// A desk of two senders. If the event is about a job, the client has sent it, and it is taken.
fn scene_of<R: Wait>(
    rt: &R,
    alloc: Global,
    task: Task,
    helped: Option<u64>,
    event: Event,
) -> Result<Scene, AllocError> {
    let Ok(desk) = Desk::new(alloc, 2) else {
        return Err(AllocError);
    };
    let mut client = Client::new(alloc, 0);
    if let Event::GiveBack | Event::LastGiveBack | Event::Finish = event {
        let _ = sends(rt, &desk, &mut client, task, 0) && desk.take_or_wait(rt).is_some();
    }
    if let Event::LastGiveBack = event {
        let _ = desk.close(rt, &client);
        let _ = desk.close(rt, &Client::new(alloc, 1));
    }
    Ok(Scene {
        desk,
        helped,
        client: Mutex::new(client),
        job: Job { id: FIRST, task },
        event,
    })
}

// The job that a worker takes.
fn take<R: Wait>(rt: &R, scene: &Scene) -> Option<Job> {
    let Some(helped) = scene.helped else {
        return scene.desk.take_or_wait(rt);
    };
    match scene.desk.take_or_help(rt, helped)? {
        Errand::Own(job) => Some(job),
        Errand::Help(_) => None,
    }
}

// A worker that waits before the client does. It can't go on after the finish or the close, so that
// call has to wake the client too. At last the worker takes a job of the other sender.
fn stand_by<R: Wait>(rt: &R, scene: &Scene) -> bool {
    match scene.event {
        Event::Submit | Event::GiveBack | Event::LastGiveBack => true,
        Event::Finish | Event::Close => take(rt, scene).is_some(),
    }
}

// Whether the turn of the waiting client returns `wanted`.
fn is_told<R: Wait>(rt: &R, scene: &Scene, wanted: Turn) -> bool {
    let mut client = scene.client.lock(rt);
    let Some(helped) = scene.helped else {
        return turns_to(rt, &scene.desk, &mut client, wanted);
    };
    scene.desk.turn_or_help(rt, &mut client, helped) == Ok(Errand::Own(wanted))
}

// Whether the call of the waiting thread returns what the event lets it return.
fn is_given<R: Wait>(rt: &R, scene: &Scene) -> bool {
    let next = Delivery {
        number: 0,
        solved: solved(scene.job.task),
    };
    match scene.event {
        Event::Submit | Event::GiveBack | Event::LastGiveBack => {
            take(rt, scene) == Some(scene.job)
        }
        Event::Finish => is_told(rt, scene, Turn::Next(next)),
        Event::Close => is_told(rt, scene, Turn::Drained),
    }
}

// Lets the waiting worker go on, by submitting a job of the other sender.
fn end<R: Wait>(rt: &R, alloc: Global, scene: &Scene) -> bool {
    match scene.event {
        Event::Submit | Event::GiveBack | Event::LastGiveBack => true,
        Event::Finish | Event::Close => {
            let mut other = Client::new(alloc, 1);
            sends(rt, &scene.desk, &mut other, scene.job.task, 0)
        }
    }
}

// Waits for the event, which alone can end the call.
fn wait<R: Wait + Clock>(rt: &R, alloc: Global, scene: &Scene) -> bool {
    thread::sleep(rt, Duration::from_millis(50));
    is_given(rt, scene) && end(rt, alloc, scene)
}

// Whether the call of the event is accepted.
fn call<R: Wait>(rt: &R, scene: &Scene, client: &mut Client) -> bool {
    match scene.event {
        Event::Submit => sends(rt, &scene.desk, client, scene.job.task, 0),
        Event::GiveBack | Event::LastGiveBack => gives_back(rt, &scene.desk, scene.job.id),
        Event::Finish => finishes(rt, &scene.desk, scene.job),
        Event::Close => scene.desk.close(rt, client) == Ok(true),
    }
}

// Makes the call while the other threads wait.
fn wake<R: Wait + Clock>(rt: &R, alloc: Global, scene: &Scene) -> bool {
    thread::sleep(rt, Duration::from_millis(150));
    call(rt, scene, &mut Client::new(alloc, 0))
}

fn play<R: Wait + Clock>(rt: &R, alloc: Global, scene: &Scene, thread: usize) -> bool {
    match thread {
        0 => wake(rt, alloc, scene),
        1 => wait(rt, alloc, scene),
        _ => stand_by(rt, scene),
    }
}

// Whether the event lets the thread that waits for it go on.
fn goes_on<R: Threads + Wait + Clock + Sync>(
    rt: &R,
    alloc: Global,
    task: Task,
    helped: Option<u64>,
    event: Event,
) -> Result<bool, AllocError> {
    let scene = scene_of(rt, alloc, task, helped, event)?;
    let passed = thread::map_indices(rt, alloc, 3, &|i| play(rt, alloc, &scene, i))?;
    Ok(!passed.contains(&false))
}

#[test]
fn who_waits_is_woken(rt: HostRuntime) -> Result<(), AllocError> {
    for (masks, helped) in WAYS {
        let task = task_of(&rt, *masks);
        for event in EVENTS {
            assert!(rt; goes_on(&rt, rt.alloc(), task, *helped, *event)?);
        }
    }
    Ok(())
}
