//! Chunks whose scoring is started, each on a thread of its own or at once on the calling thread.

ghost use Rattle.std.specs.Prelude.{◌≡◌, ◌≤◌, IfOk};
ghost use Rattle.std.specs.Arc.{arc_value};
ghost use Rattle.endgame_search.specs.Limits.{most_empties};
ghost use Rattle.list_printer.specs.Output.{HasOutput, promised_output, text_output};

use crate::chunks::Chunk;
use bound_table::{Advice, BoundTable, Bounds};
use othello_rules::Scoring;
use program_settings::Criteria;
use scored_lines::{LinesText, lines_text};
use started_threads::{Making, Started};
use std::alloc::{AllocError, Global};
use std::marker::Model;
use std::sync::Arc;
use std::sync::atomic::{AtomicU64, Ordering};
use std::thread;
use std::thread::{Promise, Threads};

/// What all threads that score lines share.
#[derive(Drop)]
pub(crate) struct Scorer {
    pub table: BoundTable,
    pub criteria: Criteria,
    /// The number of threads that score chunks. The calling thread alone adds to it, and sleeps until
    /// it changes.
    pub running: AtomicU64,
}

impl Scorer {
    // Counts a thread as ended, and wakes the calling thread.
    fn leave(&self) {
        self.running.fetch_sub(1, Ordering::SeqCst);
        self.running.wake_all();
    }

    // Scores a chunk that another thread scores, too, and drops what it finds. The two share the work
    // by the table, so the other thread is done sooner.
    fn help(&self, work: &ChunkWork)
        requires { self.now.criteria.limit ≤ most_empties }
    {
        let _ = lines_text(&self.table, work.alloc, self.criteria, &work.text);
        self.leave();
    }
}

/// The promise of a chunk's thread: it returns what is printed for the lines of `text`, under
/// `scoring` and by `criteria`.
#[derive(Clone, Copy)]
pub struct ChunkPromise<'a> {
    pub scoring: Scoring,
    pub criteria: Criteria,
    pub text: &'a [u8],
}

impl<'a> Promise<Result<LinesText, AllocError>> for ChunkPromise<'a> {
    ghost kept_by = { λ promise result. HasOutput (promised_output promise) result };
}

/// What the thread of a chunk works with.
#[derive(Drop)]
pub struct ChunkWork {
    scorer: Arc<Scorer>,
    alloc: Global,
    // A copy of the chunk's lines.
    text: Vec<u8>,
    // 1 once the chunk is scored.
    done: AtomicU64,
    is_worth_sharing: bool,
    // How often a thread was asked for to help with the chunk.
    helpers: AtomicU64,
}

impl ChunkWork {
    // Scores the chunk, and marks it as scored.
    fn run(&self) -> Result<LinesText, AllocError>
        requires { (arc_value self.now.scorer).criteria.limit ≤ most_empties }
        ensures { HasOutput (text_output (arc_value self.now.scorer).table.scoring
            (arc_value self.now.scorer).criteria self.now.text.items) result }
    {
        let scorer = &*self.scorer;
        let found = lines_text(&scorer.table, self.alloc, scorer.criteria, &self.text);
        self.done.store(1, Ordering::SeqCst);
        scorer.leave();
        found
    }

    /// Whether one more thread is to help with the chunk. It is true at most `most` times.
    pub(crate) fn takes_helper(&self, most: u8) -> bool {
        self.is_worth_sharing && self.helpers.fetch_add(1, Ordering::SeqCst) < u64::from(most)
    }
}

/// A chunk whose scoring was started. If it is dropped, its thread runs on.
#[derive(Drop)]
pub struct StartedChunk<'a> {
    pub output: Started<Result<LinesText, AllocError>, ChunkPromise<'a>>,
    /// What the chunk's thread works with, if one was to be started.
    pub work: Option<Arc<ChunkWork>>,
}

impl<'a> Model for StartedChunk<'a> {
    ghost use Rattle.list_printer.specs.Output.{Output, promised_output};

    ghost Value = { Output };

    ghost view = { λ s. promised_output s.output };
}

impl<'a> StartedChunk<'a> {
    // Whether the chunk is scored.
    pub(crate) fn is_ready(&self) -> bool {
        match &self.work {
            Some(work) => work.done.load(Ordering::SeqCst) != 0,
            None => true,
        }
    }

    // Waits for the chunk's thread, if it has one, and returns what is printed.
    pub(crate) fn join<R: Threads>(self, rt: &R) -> Result<LinesText, AllocError>
        ensures { HasOutput self.entry result }
    {
        let StartedChunk { output, work: _ } = self;
        output.join(rt)
    }
}

// What the thread of a chunk works with, with a copy of the text.
fn work_of(
    scorer: &Arc<Scorer>,
    alloc: Global,
    text: &[u8],
    is_worth_sharing: bool,
) -> Result<ChunkWork, AllocError>
    ensures { IfOk result (λ work.
        (arc_value work.scorer ≡ arc_value scorer.now) × (work.text.items ≡ text.now)) }
{
    Ok(ChunkWork {
        scorer: Arc::try_clone(scorer)?,
        alloc,
        text: Vec::from_slice(alloc, text)?,
        done: AtomicU64::new(0),
        is_worth_sharing: is_worth_sharing && scorer.table.is_worth_sharing(),
        helpers: AtomicU64::new(0),
    })
}

// Starts a chunk on a thread of its own. If no thread can be started, the calling thread scores
// the chunk. `Err` if memory is refused.
fn spawn_chunk<'a, R: Threads>(
    rt: &R,
    scorer: &Arc<Scorer>,
    alloc: Global,
    promise: ChunkPromise<'a>,
    is_worth_sharing: bool,
) -> Result<StartedChunk<'a>, AllocError>
    requires limit { (arc_value scorer.now).criteria.limit ≤ most_empties }
    requires scoring { promise.scoring ≡ (arc_value scorer.now).table.scoring }
    requires criteria { promise.criteria ≡ (arc_value scorer.now).criteria }
    ensures { IfOk result (λ chunk. chunk ≡ promised_output promise.entry) }
{
    let work = work_of(scorer, alloc, promise.text, is_worth_sharing)?;
    let work = Arc::new(alloc, work)?;
    let own = Arc::try_clone(&work)?;
    scorer.running.fetch_add(1, Ordering::SeqCst);
    let spawned = thread::spawn_with(
        rt,
        promise,
        move || -> Result<LinesText, AllocError>
            requires { (arc_value (arc_value own).scorer).criteria.limit ≤ most_empties }
            ensures { HasOutput (text_output (arc_value (arc_value own).scorer).table.scoring
                (arc_value (arc_value own).scorer).criteria (arc_value own).text.items) result }
        { own.run() },
    );
    let making = match spawned {
        Ok(handle) => Making::Pending(handle),
        Err(refused) => Making::Ready((refused.value)()),
    };
    Ok(StartedChunk {
        output: Started { promise, making },
        work: Some(work),
    })
}

/// Starts a thread that helps with a chunk, whose work this is. False if none can be started.
pub(crate) fn start_helper<R: Threads>(rt: &R, scorer: &Arc<Scorer>, work: &Arc<ChunkWork>) -> bool
    requires { (arc_value scorer.now).criteria.limit ≤ most_empties }
{
    let (Ok(theirs), Ok(own)) = (Arc::try_clone(scorer), Arc::try_clone(work)) else {
        return false;
    };
    scorer.running.fetch_add(1, Ordering::SeqCst);
    let spawned = thread::spawn(
        rt,
        move ||
            requires { (arc_value theirs).criteria.limit ≤ most_empties }
        { theirs.help(&own) },
    );
    if spawned.is_err() {
        scorer.leave();
    }
    spawned.is_ok()
}

/// Starts the scoring of a chunk: on a thread of its own, or on the calling thread if the chunk
/// is for that thread or a thread can't be started.
pub(crate) fn start<'a, R: Threads>(
    rt: &R,
    scorer: &Arc<Scorer>,
    alloc: Global,
    chunk: Chunk<'a>,
) -> StartedChunk<'a>
    requires { (arc_value scorer.now).criteria.limit ≤ most_empties }
    ensures { result ≡ text_output (arc_value scorer.now).table.scoring
        (arc_value scorer.now).criteria chunk.entry.front.now }
{
    let shared = &**scorer;
    let promise = ChunkPromise {
        scoring: shared.table.scoring(),
        criteria: shared.criteria,
        text: chunk.front,
    };
    if !chunk.is_for_caller {
        if let Ok(started) = spawn_chunk(rt, scorer, alloc, promise, chunk.is_worth_sharing) {
            return started;
        }
    }
    let found = lines_text(&shared.table, alloc, shared.criteria, chunk.front);
    let making = Making::Ready(found);
    StartedChunk {
        output: Started { promise, making },
        work: None,
    }
}
