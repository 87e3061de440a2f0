//! Threads that search one position together.

ghost use Rattle.std.specs.Prelude.{◌≡◌};

use super::runs::{files_of, settings_of, texts_of};
use bound_table::{Advice, BoundTable, Bounds, Foreseen, Range};
use job_board::Desk;
use othello_bits::Pos;
use othello_rules::Scoring;
use program_settings::MOST_BYTES;
use solved_book::Claims;
use std::alloc::Global;
use std::sync::atomic::{AtomicU32, Ordering};
use std::sync::{Condvar, Mutex, Wait};
use std::test::Fail;
use std::thread;
use std::thread::Threads;
use std::time::{Clock, Duration};
use suite_runs::worker_part;
use suite_solver::laws::client_part;
use suite_solver::{Gate, NoGate};

// A line of a position with 18 empty squares, and its score. The same search in plain Rust gives it.
const EIGHTEEN: &[u8] = b"OO-O-O--XOXOXX---XOOOOOOXXXOOX--OXOXX---OOXXXX--OXX-OXX--XXO-OOO X\n";

const SCORE: i8 = -16;

// Lines of positions with 16 and 15 empty squares. The first one is worth 6, by H4 alone.
const SIXTEEN: &[u8] = b"X---OO--XXXXOO--XXXXOO-X--XXOOX--XXOOXXOXXOXOXOOXOOOOXXO---OOO-X X\n";

const FIFTEEN: &[u8] = b"XOOOO---XOOO----XOOOO--XXOOXO-X-XXXXXXO-OXOOXOO-OXXXOOOOOX-XXXX- O\n";

// A table that counts stores and evaluations, how often a thread asked whether another one searches a
// position and one did, and how often a thread came to the desk: each time it asks whether to help.
#[derive(Drop)]
struct Counter {
    table: BoundTable,
    stores: AtomicU32,
    evaluations: AtomicU32,
    begun: AtomicU32,
    visits: AtomicU32,
}

impl Bounds for Counter {
    ghost scoring = { λ counter. counter.table.scoring };

    fn scoring(&self) -> Scoring {
        self.table.scoring()
    }

    fn probe(&self, position: &Pos) -> Option<Range> {
        self.table.probe(position)
    }

    fn store(&self, position: &Pos, range: Range) {
        self.stores.fetch_add(1, Ordering::SeqCst);
        self.table.store(position, range);
    }
}

impl Advice for Counter {
    fn is_worth_sharing(&self) -> bool {
        self.visits.fetch_add(1, Ordering::SeqCst);
        self.table.is_worth_sharing()
    }

    fn begin(&self, position: &Pos) {
        self.table.begin(position);
    }

    fn end(&self, position: &Pos) {
        self.table.end(position);
    }

    fn is_begun(&self, position: &Pos) -> bool {
        let is_begun = self.table.is_begun(position);
        if is_begun {
            self.begun.fetch_add(1, Ordering::SeqCst);
        }
        is_begun
    }

    fn foreseen(&self, position: &Pos, respect: u16) -> Foreseen {
        self.table.foreseen(position, respect)
    }

    fn note_foreseen(&self, position: &Pos, respect: u16, foreseen: Foreseen) {
        self.table.note_foreseen(position, respect, foreseen);
    }

    fn note_evaluation(&self) {
        self.evaluations.fetch_add(1, Ordering::SeqCst);
    }
}

// Whether a thread came, so that others go on.
#[derive(Drop)]
struct Signal {
    came: Mutex<bool>,
    changed: Condvar,
}

impl Signal {
    fn new() -> Signal {
        Signal {
            came: Mutex::new(false),
            changed: Condvar::new(),
        }
    }

    fn send<R: Wait>(&self, rt: &R) {
        *self.came.lock(rt) = true;
        self.changed.notify_all();
    }

    fn wait<R: Wait>(&self, rt: &R) {
        let mut came = self.came.lock(rt);
        for _ in rt.forever() {
            if *came {
                return;
            }
            came = self.changed.wait(rt, came);
        }
    }
}

// A gate that holds each thread that begins a job until the gate is opened.
#[derive(Drop)]
struct Holding {
    opened: Signal,
    begun: Signal,
    // Whether the client takes no job before another thread has begun one.
    is_client_late: bool,
}

impl Gate for Holding {
    fn submitted<R: Wait>(&self, rt: &R, _sender: u32, _count: usize) {
        if self.is_client_late {
            self.begun.wait(rt);
        }
    }

    fn enter<R: Wait>(&self, rt: &R, _sender: u32, _number: u32) {
        self.begun.send(rt);
        self.opened.wait(rt);
    }

    fn leave<R: Wait>(&self, _rt: &R, _sender: u32, _number: u32) {}
}

// A run of one position: the last thread opens the gate after some time, the first one is a client, and
// the others are workers.
#[derive(Drop)]
struct Scene<'a> {
    text: &'static [u8],
    claims: Option<&'a Claims>,
    // In milliseconds.
    held: u64,
    desk: Desk,
    counter: Counter,
    gate: Holding,
}

// What a run counts.
#[derive(Clone, Copy, PartialEq, Eq, Debug)]
struct Counts {
    score: Option<i8>,
    stores: u32,
    evaluations: u32,
    begun: u32,
    visits: u32,
}

// The score that the client receives.
fn score_of<R: Wait>(rt: &R, alloc: Global, scene: &Scene<'_>) -> Option<i8> {
    let Scene {
        text,
        claims,
        desk,
        counter,
        gate,
        ..
    } = scene;
    if text.len() > MOST_BYTES {
        return None;
    }
    let part = client_part(rt, alloc, text, 0, 20, desk, counter, *claims, gate);
    Some(part.ok()?.solved.first()?.answer().score)
}

fn play<R: Wait + Clock>(
    rt: &R,
    alloc: Global,
    scene: &Scene<'_>,
    thread: usize,
    threads: usize,
) -> Option<i8> {
    if thread == 0 {
        return score_of(rt, alloc, scene);
    }
    if thread == threads {
        thread::sleep(rt, Duration::from_millis(scene.held));
        scene.gate.opened.send(rt);
        return None;
    }
    let Scene {
        claims,
        desk,
        counter,
        gate,
        ..
    } = scene;
    worker_part(rt, desk, counter, *claims, gate);
    None
}

// What a run on this number of threads counts, over a new table. The threads are held for `held`
// milliseconds. A late client takes no job before a worker has begun one.
fn count<R: Threads + Wait + Clock + Sync>(
    rt: &R,
    alloc: Global,
    text: &'static [u8],
    entries: usize,
    threads: usize,
    held: u64,
    is_client_late: bool,
    claims: Option<&Claims>,
) -> Result<Counts, Fail> {
    let scene = Scene {
        text,
        claims,
        held,
        desk: Desk::new(alloc, 1)?,
        counter: Counter {
            table: BoundTable::new(alloc, entries, Scoring::Winner)?,
            stores: AtomicU32::new(0),
            evaluations: AtomicU32::new(0),
            begun: AtomicU32::new(0),
            visits: AtomicU32::new(0),
        },
        gate: Holding {
            opened: Signal::new(),
            begun: Signal::new(),
            is_client_late,
        },
    };
    let scores = thread::map_indices(
        rt,
        alloc,
        threads.saturating_add(1),
        &|thread| play(rt, alloc, &scene, thread, threads),
    )?;
    let counter = &scene.counter;
    Ok(Counts {
        score: scores.first().copied().flatten(),
        stores: counter.stores.load(Ordering::SeqCst),
        evaluations: counter.evaluations.load(Ordering::SeqCst),
        begun: counter.begun.load(Ordering::SeqCst),
        visits: counter.visits.load(Ordering::SeqCst),
    })
}

// A client and three workers leave positions to one another: together they search and evaluate at most
// twice as much as one of them alone. What a thread searches it stores.
#[test]
fn threads_share_a_position(rt: HostRuntime) -> Result<(), Fail> {
    let alone = count(&rt, rt.alloc(), EIGHTEEN, 65_536, 1, 0, false, None)?;
    let shared = count(&rt, rt.alloc(), EIGHTEEN, 65_536, 4, 0, false, None)?;
    assert!(rt; alone.score == Some(SCORE) && shared.score == Some(SCORE));
    assert!(rt; alone.begun == 0 && shared.begun > 0);
    assert!(rt; shared.stores <= alone.stores.saturating_mul(2));
    assert!(rt; shared.evaluations <= alone.evaluations.saturating_mul(2));
    Ok(())
}

// While a thread is held for a second with its job, each of three others solves the job, too, once, and
// then waits at the desk: also the client, if a worker has the job.
#[test]
fn threads_that_have_helped_wait(rt: HostRuntime) -> Result<(), Fail> {
    for is_client_late in [false, true] {
        let shared = count(
            &rt,
            rt.alloc(),
            EIGHTEEN,
            65_536,
            4,
            1_000,
            is_client_late,
            None,
        )?;
        assert!(rt; shared.score == Some(SCORE) && shared.begun > 0 && shared.visits <= 12);
    }
    Ok(())
}

// Lines, and how many entries a table has with which help is of no use.
const USELESS: [(&[u8], usize); 3] = [(SIXTEEN, 0), (SIXTEEN, 16), (FIFTEEN, 65_536)];

// Without a table, with a small one and with few empty squares, one thread alone solves a position.
#[test]
fn threads_help_where_it_is_of_use(rt: HostRuntime) -> Result<(), Fail> {
    for (text, entries) in USELESS {
        let alone = count(&rt, rt.alloc(), text, entries, 1, 0, false, None)?;
        let many = count(&rt, rt.alloc(), text, entries, 4, 300, false, None)?;
        assert!(rt; many.score.is_some() && many.score == alone.score);
        assert!(rt; many.begun == 0 && many.evaluations == alone.evaluations);
    }
    Ok(())
}

// A book that claims a lower score of that position, in its canonical form.
const WRONG_BOOK: &[u8] = b"% ffobook 2 winner\n\
-OOOX-XOXXOXXXOOXXXOXOX-O-XXOOOO-OXXOOX-OXX-XOXOOX---O--O----O-- X; A1:-20;\n";

// Threads share the test of a claim, too.
#[test]
fn threads_share_a_claim(rt: HostRuntime) -> Result<(), Fail> {
    let claims = Claims::read(rt.alloc(), WRONG_BOOK)?;
    let shared = count(
        &rt,
        rt.alloc(),
        EIGHTEEN,
        65_536,
        4,
        0,
        false,
        Some(&claims),
    )?;
    assert!(rt; shared.score == Some(SCORE) && shared.begun > 0);
    Ok(())
}

const REPORT: &[u8] = b"[1]\n1 +06 H4 unlisted\nsolved 1 refused 0\n";

// As many workers as there may be solve one position.
#[test]
fn sixty_four_workers_share_a_position(rt: HostRuntime) -> Result<(), Fail> {
    let alloc = rt.alloc();
    let files = files_of(alloc, &[SIXTEEN])?;
    let settings = settings_of(64, 65_536);
    let outcome = suite_solver::run(&rt, alloc, &files, &settings, None, &NoGate)?;
    let (reports, _) = texts_of(alloc, outcome)?;
    assert!(rt; reports.as_slice() == REPORT);
    Ok(())
}
