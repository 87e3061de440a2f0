//! A worked list of steps, the order of `take`, and a desk on one thread and on many. If one request
//! for memory is refused, a test ends with that, or makes the refused call again.

mod crowds;
mod desks;
mod helpers;
mod limits;
mod memory;
mod steps;
mod waits;

use bound_table::NoTable;
use endgame_search::{Solved, Task, solve};
use job_board::{Client, Desk, Job, JobId, SubmitFault, Turn};
use othello_bits::Pos;
use othello_rules::Scoring;
use std::process::Abort;
use std::sync::Wait;

// The empty squares and the opponent's discs; all other squares are the mover's.
type Masks = (u64, u64);

// -OOOOOOX and seven rows of X
const LAST_CORNER: Masks = (0x1, 0x7e);

// --OOOOOX and seven rows of X
const CORNER_LEFT_OVER: Masks = (0x3, 0x7c);

// -OOXXOO- and seven rows of X
const EQUAL_CORNERS: Masks = (0x81, 0x66);

// -OXXXXX- XXXXXXXO XXXXXXXX XXXXXXXX XXXOXXXX and three rows of X
const UNEQUAL_CORNERS: Masks = (0x81, 0x8_0000_8002);

// Two empty rows and six rows of X. The game is over, but it has as many empty squares as threads
// share.
const TWO_EMPTY_ROWS: Masks = (0xffff, 0);

// The first and the second job of the first sender.
const FIRST: JobId = JobId {
    sender: 0,
    number: 0,
};

const SECOND: JobId = JobId {
    sender: 0,
    number: 1,
};

fn task_by(rt: &impl Abort, masks: Masks, scoring: Scoring) -> Task {
    let (empties, opp) = masks;
    let position = Pos::new(!(opp | empties), opp).expect(rt, "no square is taken twice");
    Task::new(position, 20, scoring).expect(rt, "few empty squares")
}

fn task_of(rt: &impl Abort, masks: Masks) -> Task {
    task_by(rt, masks, Scoring::Winner)
}

fn solved(task: Task) -> Solved {
    solve(&NoTable::new(task.scoring()), task)
}

// The result of a submit. A submit that is refused memory is made again.
fn submit<R: Wait>(
    rt: &R,
    desk: &Desk,
    client: &mut Client,
    task: Task,
) -> Result<u32, SubmitFault> {
    let sent = desk.submit(rt, client, task);
    if sent == Err(SubmitFault::Memory) {
        return desk.submit(rt, client, task);
    }
    sent
}

// Whether a submit gets this number. A submit that is refused memory is made again.
fn sends<R: Wait>(rt: &R, desk: &Desk, client: &mut Client, task: Task, number: u32) -> bool {
    submit(rt, desk, client, task) == Ok(number)
}

// Whether the client's turn returns `turn`.
fn turns_to<R: Wait>(rt: &R, desk: &Desk, client: &mut Client, turn: Turn) -> bool {
    desk.turn(rt, client) == Ok(turn)
}

fn finishes<R: Wait>(rt: &R, desk: &Desk, job: Job) -> bool {
    desk.finish(rt, job.id, solved(job.task)) == Ok(())
}

fn gives_back<R: Wait>(rt: &R, desk: &Desk, id: JobId) -> bool {
    desk.give_back(rt, id) == Ok(())
}
