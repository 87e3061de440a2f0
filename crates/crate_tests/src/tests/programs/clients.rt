//! Clients and gates.

ghost use Rattle.std.specs.Prelude.{◌≤◌, length};

use super::super::searches::count_probes;
use super::{CountingGate, ONE, TWO_JOBS};
use arrayvec::ArrayVec;
use bound_table::NoTable;
use endgame_search::Task;
use job_board::{Client, Desk, JobId, SubmitFault};
use othello_bits::Pos;
use othello_rules::Scoring;
use program_settings::MOST_BYTES;
use solved_book::Claims;
use std::alloc::{AllocError, Global};
use std::process::Abort;
use std::sync::atomic::{AtomicU32, Ordering};
use std::sync::{Mutex, Wait};
use std::test::Fail;
use suite_solver::laws::client_part;
use suite_solver::{Gate, NoGate, RunFault};

// Whether a client's part ends for a reason other than memory.
fn is_mixed_part<R: Wait, G: Gate>(
    rt: &R,
    alloc: Global,
    desk: &Desk,
    gate: &G,
    text: &[u8],
    sender: u32,
) -> Result<bool, AllocError>
    requires { length text.now ≤ MOST_BYTES }
{
    let table = NoTable::new(Scoring::Winner);
    match client_part(rt, alloc, text, sender, 20, desk, &table, None, gate) {
        Err(RunFault::Memory) => Err(AllocError),
        Err(fault) => Ok(fault == RunFault::Mixed),
        Ok(_) => Ok(false),
    }
}

// Whether the parts of two clients are refused: one that takes a job of another scoring, and one
// whose sender is not the desk's.
fn are_mixed<R: Wait, G: Gate>(
    rt: &R,
    alloc: Global,
    desk: &Desk,
    gate: &G,
) -> Result<bool, AllocError> {
    Ok(
        is_mixed_part(rt, alloc, desk, gate, ONE, 1)?
            && is_mixed_part(rt, alloc, desk, gate, ONE, 2)?,
    )
}

const FIRST_JOB: JobId = JobId {
    sender: 0,
    number: 0,
};

// A job of another scoring is given back, and no gate is called.
#[test]
fn clients_are_refused(rt: HostRuntime) -> Result<(), Fail> {
    let desk = Desk::new(rt.alloc(), 2)?;
    let position = Pos::new(!0xff, 0x7e).expect(&rt, "no square is taken twice");
    let mut other = Client::new(rt.alloc(), 0);
    desk.submit(&rt, &mut other, Task::new(position, 20, Scoring::Discs)?)?;
    let gate = CountingGate::new();
    assert!(rt; are_mixed(&rt, rt.alloc(), &desk, &gate)? && gate.counts() == (0, 0));
    assert!(rt; desk.take_or_wait(&rt).map(|job| job.id) == Some(FIRST_JOB));
    Ok(())
}

// A call of a gate: the sender, the job's number, and whether the job was found finished.
type Call = (u32, u32, bool);

// Keeps its calls. The desk shows whether a job that is left was finished: one that is still
// taken is given back.
#[derive(Drop)]
struct NotingGate<'a> {
    desk: &'a Desk,
    calls: Mutex<ArrayVec<Call, 8>>,
}

impl NotingGate<'_> {
    fn note<R: Wait>(&self, rt: &R, call: Call) {
        let _ = self.calls.lock(rt).try_push(call);
    }
}

impl Gate for NotingGate<'_> {
    fn enter<R: Wait>(&self, rt: &R, sender: u32, number: u32) {
        self.note(rt, (sender, number, false));
    }

    fn leave<R: Wait>(&self, rt: &R, sender: u32, number: u32) {
        let is_finished = self.desk.give_back(rt, JobId { sender, number }).is_err();
        self.note(rt, (sender, number, is_finished));
    }
}

const CALLS: &[Call] = &[(1, 0, false), (1, 0, true), (1, 1, false), (1, 1, true)];

// A gate is entered as each of the client's own jobs begins, and left after the desk has accepted
// its answer.
#[test]
fn gates_are_called_for_each_job(rt: HostRuntime) -> Result<(), Fail> {
    let alloc = rt.alloc();
    let desk = Desk::new(alloc, 2)?;
    let table = NoTable::new(Scoring::Winner);
    let gate = NotingGate {
        desk: &desk,
        calls: Mutex::new(ArrayVec::new()),
    };
    let part = client_part(&rt, alloc, TWO_JOBS, 1, 20, &desk, &table, None, &gate)?;
    assert!(rt; part.solved.len() == 2 && gate.calls.into_inner().as_slice() == CALLS);
    Ok(())
}

// Gives back the first job that it enters, so that its finish is refused. It counts the jobs
// whose finish was accepted.
#[derive(Drop)]
struct MeddlingGate<'a> {
    desk: &'a Desk,
    calls: CountingGate,
    finished: AtomicU32,
}

impl Gate for MeddlingGate<'_> {
    fn enter<R: Wait>(&self, rt: &R, sender: u32, number: u32) {
        if self.calls.counts() == (0, 0) {
            let _ = self.desk.give_back(rt, JobId { sender, number });
        }
        self.calls.enter(rt, sender, number);
    }

    fn leave<R: Wait>(&self, rt: &R, sender: u32, number: u32) {
        self.calls.leave(rt, sender, number);
    }

    fn finished<R: Wait>(&self, _rt: &R, _sender: u32, _number: u32) {
        self.finished.fetch_add(1, Ordering::SeqCst);
    }
}

// The gate leaves such a job too, and does not count it as finished.
#[test]
fn a_refused_finish_ends_the_part(rt: HostRuntime) -> Result<(), Fail> {
    let alloc = rt.alloc();
    let desk = Desk::new(alloc, 1)?;
    let gate = MeddlingGate {
        desk: &desk,
        calls: CountingGate::new(),
        finished: AtomicU32::new(0),
    };
    let refused = is_mixed_part(&rt, alloc, &desk, &gate, TWO_JOBS, 0)?;
    assert!(rt; refused && gate.calls.counts() == (1, 1));
    assert!(rt; gate.finished.load(Ordering::SeqCst) == 0);
    Ok(())
}

// A client of sender 0 that has submitted `count` tasks.
fn sent_client<R: Wait>(
    rt: &R,
    alloc: Global,
    desk: &Desk,
    task: Task,
    count: u32,
) -> Result<Client, SubmitFault> {
    let mut client = Client::new(alloc, 0);
    for _ in 0..count {
        desk.submit(rt, &mut client, task)?;
    }
    Ok(client)
}

// A sender with one job fewer than it may have: the part's second task is refused, and the
// sender is closed.
#[test]
fn a_refused_submit_closes_the_sender(rt: HostRuntime) -> Result<(), Fail> {
    let alloc = rt.alloc();
    let desk = Desk::new(alloc, 1)?;
    let position = Pos::new(!0, 0).expect(&rt, "no square is taken twice");
    let task = Task::new(position, 20, Scoring::Winner)?;
    let mut other = sent_client(&rt, alloc, &desk, task, 65_534)?;
    assert!(rt; is_mixed_part(&rt, alloc, &desk, &NoGate, TWO_JOBS, 0)?);
    assert!(rt; desk.submit(&rt, &mut other, task) == Err(SubmitFault::Closed));
    Ok(())
}

// A client closes its sender, since others wait for that: also one that runs out of memory for its text, or
// later. `tests/test_crates.py` refuses each request in turn, and sees each refusal end the test with `Memory`.
#[test]
fn an_unread_text_closes_the_sender(rt: HostRuntime) -> Result<(), Fail> {
    let alloc = rt.alloc();
    let desk = Desk::new(alloc, 1)?;
    let table = NoTable::new(Scoring::Winner);
    let part = client_part(&rt, alloc, TWO_JOBS, 0, 20, &desk, &table, None, &NoGate);
    assert!(rt; desk.close(&rt, &Client::new(alloc, 0)) == Ok(false));
    assert!(rt; part?.solved.len() == 2);
    Ok(())
}

// A position with 60 empty squares. The move to E1 turns all white discs, and ends the game.
const SIXTY_EMPTY: &[u8] = b"XOOO------------------------------------------------------------ X\n";

// A book that claims a lower score of it.
const WRONG_BOOK: &[u8] =
    b"XOOO------------------------------------------------------------ X; E1:-10;\n";

// How many probes the part of the text makes in a table that keeps nothing, with these claims.
fn count_part_probes<R: Wait + Abort>(
    rt: &R,
    alloc: Global,
    claims: Option<&Claims>,
) -> Result<u32, RunFault> {
    let position = Pos::new(0x1, 0xe).expect(rt, "no square is taken twice");
    let counter = count_probes(rt, alloc, 0, [position; 2]);
    let desk = Desk::new(alloc, 1).expect(rt, "memory");
    client_part(
        rt,
        alloc,
        SIXTY_EMPTY,
        0,
        60,
        &desk,
        &counter,
        claims,
        &NoGate,
    )?;
    Ok(counter.probes.get())
}

// A claim that is too low is tested, and saves the search for a lower bound.
#[test]
fn claims_of_wide_positions_are_tested(rt: HostRuntime) -> Result<(), Fail> {
    let claims = Claims::read(rt.alloc(), WRONG_BOOK)?;
    let without = count_part_probes(&rt, rt.alloc(), None)?;
    let with_claims = count_part_probes(&rt, rt.alloc(), Some(&claims))?;
    assert!(rt; 0 < with_claims && with_claims < without);
    Ok(())
}
