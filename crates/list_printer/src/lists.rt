//! Lists of positions, printed line by line with every move's score.

ghost use Rattle.std.specs.Prelude.{◌≡◌, ◌≤◌, ◌<◌, IfOk, OnErr, OnOk, [], drop, false, length, true};
ghost use Rattle.std.specs.Arc.{arc_value};
ghost use Rattle.std.specs.Io.KnownBytes.{Appends};
ghost use Rattle.std.specs.IoError.{error_kind};
ghost use Rattle.endgame_search.specs.Limits.{most_empties};
ghost use Rattle.obf_text.specs.LineText.{texts_of};
ghost use Rattle.scored_lines.specs.Lines.{lists_right, lists_text};
ghost use Rattle.written_bytes.specs.WrittenBytes.{AppendsFront};
ghost use Rattle.list_printer.specs.Output.{PrintsPart, chunks_output};
ghost use Rattle.list_printer.specs.Output.{lists_output, queue_output};
ghost use Rattle.list_printer.specs.declared.lists.ListFault.TheVariants.{CannotWrite, Memory};

use crate::chunk_threads::{Scorer, StartedChunk, start, start_helper};
use crate::chunks::Lists;
use bound_table::BoundTable;
use program_settings::Criteria;
use std::alloc::{AllocError, AllocFailed, Global};
use std::collections::VecDeque;
use std::io;
use std::io::{ErrorKind, Write};
use std::sync::atomic::{AtomicU64, Ordering};
use std::sync::{Arc, Wait};
use std::thread::Threads;
use thiserror::Error;
use written_bytes::send;

/// Why lists were not printed to their end.
#[derive(Clone, Copy, PartialEq, Eq, Debug, Error)]
pub enum ListFault {
    /// Memory was refused.
    #[error("out of memory")]
    Memory,
    /// The writer failed, or took no byte of what was left.
    #[error("cannot write")]
    CannotWrite(ErrorKind),
}

impl From<AllocError> for ListFault {
    ghost from_gives = { λ _ fault. fault ≡ Memory };

    fn from(_error: AllocError) -> ListFault {
        ListFault::Memory
    }
}

impl<T: Drop> From<AllocFailed<T>> for ListFault {
    ghost from_gives = { λ _ fault. fault ≡ Memory };

    fn from(_error: AllocFailed<T>) -> ListFault {
        ListFault::Memory
    }
}

impl From<io::Error> for ListFault {
    ghost from_gives = { λ given fault. fault ≡ CannotWrite (error_kind given) };

    fn from(error: io::Error) -> ListFault {
        ListFault::CannotWrite(error.kind())
    }
}

// The started chunks that are not yet printed, in their order.
#[derive(Drop)]
struct ChunkQueue<'a> {
    chunks: VecDeque<StartedChunk<'a>>,
    // Whether all printed lines are right: none is refused, and no remark is made.
    right: bool,
    // If above 0, one less than the greatest number of threads that score lines at once. With 0 the
    // calling thread scores all.
    workers: u8,
}

impl ChunkQueue<'_> {
    // Whether the front chunk is scored.
    fn is_front_ready(&self) -> bool
        ensures { result ≡ true → 0 < length self.now.chunks.items }
    {
        match self.chunks.front() {
            None => false,
            Some(front) => front.is_ready(),
        }
    }

    // Starts a thread that helps with the front chunk, if that is worth sharing and not enough
    // threads were asked for. Returns whether one was started.
    fn help_front<R: Threads>(&self, rt: &R, scorer: &Arc<Scorer>) -> bool
        requires { (arc_value scorer.now).criteria.limit ≤ most_empties }
    {
        let Some(front) = self.chunks.front() else {
            return false;
        };
        match &front.work {
            Some(work) => work.takes_helper(self.workers) && start_helper(rt, scorer, work),
            None => false,
        }
    }

    // Waits until the front chunk is scored, or at most `most` chunks are left and another may
    // be started. Returns whether the front chunk is scored. Threads that could score another
    // chunk help with the front one.
    fn wait<R: Threads + Wait>(&self, rt: &R, scorer: &Arc<Scorer>, most: usize) -> bool
        requires limit { (arc_value scorer.now).criteria.limit ≤ most_empties }
        ensures some { result ≡ true → 0 < length self.now.chunks.items }
        ensures few { result ≡ false → length self.now.chunks.items ≤ most }
    {
        for _ in rt.forever() {
            let running = scorer.running.load(Ordering::SeqCst);
            if self.is_front_ready() {
                return true;
            }
            let may_start = running <= u64::from(self.workers);
            if may_start && self.chunks.len() <= most {
                return false;
            }
            if !may_start || !self.help_front(rt, scorer) {
                scorer.running.park(rt, (running % 0x1_0000_0000) as u32);
            }
        }
        unreachable!()
    }
}

// Prints the front chunk, if there is one, and flushes the writer. It waits for the chunk's thread,
// if it has one.
fn write_front<R: Threads, W: Write>(
    rt: &R,
    writer: &mut W,
    queue: &mut ChunkQueue<'_>,
) -> Result<(), ListFault>
    ensures printed { OnOk result (PrintsPart (W.contents writer.old) (W.contents writer.new)
        (queue_output queue.old.right queue.old.chunks.items)
        (queue_output queue.new.right queue.new.chunks.items)) }
    ensures rest { OnOk result (queue.new.chunks.items ≡ drop 1 queue.old.chunks.items) }
    ensures front { OnErr result (AppendsFront (W.contents writer.old) (W.contents writer.new)
        (chunks_output queue.old.chunks.items).text) }
{
    let Some(front) = queue.chunks.pop_front() else {
        return Ok(());
    };
    let found = front.join(rt)?;
    send(writer, &found.bytes)?;
    queue.right &= found.right;
    Ok(())
}

// The greatest number of chunks that wait to be printed while another is started. Behind a line that
// takes hours they need 50 MB if each has eight lines.
const MOST_STARTED: usize = 4095;

// Prints the front chunks that are scored, and waits until at most `most` are left and another
// may be started.
fn write_ready<R: Threads + Wait, W: Write>(
    rt: &R,
    writer: &mut W,
    scorer: &Arc<Scorer>,
    queue: &mut ChunkQueue<'_>,
    most: usize,
) -> Result<(), ListFault>
    requires limit { (arc_value scorer.now).criteria.limit ≤ most_empties }
    ensures printed { OnOk result (PrintsPart (W.contents writer.old) (W.contents writer.new)
        (queue_output queue.old.right queue.old.chunks.items)
        (queue_output queue.new.right queue.new.chunks.items)) }
    ensures left { OnOk result (length queue.new.chunks.items ≤ most) }
    ensures front { OnErr result (AppendsFront (W.contents writer.old) (W.contents writer.new)
        (chunks_output queue.old.chunks.items).text) }
{
    while queue.wait(rt, scorer, most) {
        write_front(rt, writer, queue)?;
    }
    Ok(())
}

// Starts the chunks of the texts in an empty queue, and prints all of them.
fn print_all<'a, R: Threads + Wait, W: Write>(
    rt: &R,
    writer: &mut W,
    scorer: &Arc<Scorer>,
    alloc: Global,
    queue: &mut ChunkQueue<'a>,
    texts: &'a [Vec<u8>],
) -> Result<(), ListFault>
    requires limit { (arc_value scorer.now).criteria.limit ≤ most_empties }
    requires empty { queue.old.chunks.items ≡ [] }
    requires right { queue.old.right ≡ true }
    ensures printed { OnOk result (PrintsPart (W.contents writer.old) (W.contents writer.new)
        (lists_output (arc_value scorer.now).table.scoring (arc_value scorer.now).criteria
        (texts_of texts.now))
        (queue_output queue.new.right [])) }
    ensures front { OnErr result (AppendsFront (W.contents writer.old) (W.contents writer.new)
        (lists_text (arc_value scorer.now).table.scoring (arc_value scorer.now).criteria
        (texts_of texts.now))) }
{
    let limit = scorer.criteria.limit;
    let mut lists = Lists { rest: b"", texts };
    while let Some(chunk) = lists.next_chunk(limit, queue.workers == 0) {
        queue.chunks.push_back(start(rt, scorer, alloc, chunk))?;
        write_ready(rt, writer, scorer, queue, MOST_STARTED)?;
    }
    write_ready(rt, writer, scorer, queue, 0)
}

/// Prints texts again, one after the other. Each line is written and flushed as soon as it and all
/// lines before it are scored; lines that take milliseconds may be written several at a time.
///
/// A line that is skipped is printed as it is. A position is printed with every move's exact score
/// under the table's scoring, then the remarks on the moves that its line lists, then the line's
/// comment. Scores are in discs, or 1, 0 or -1 under `Scoring::Sign`, as the side to move sees
/// them. A line with a fault, and one whose position has more than `criteria.limit` empty squares,
/// is refused: it is printed as a comment with the reason and the line. Under `criteria.complete`
/// each best move that a line with moves does not list gets a remark after the other remarks.
///
/// With `workers` above 0, up to `workers` + 1 threads score lines at once. The calling thread is
/// one of them while it scores lines that take less time than starting a thread. When no line is
/// left to start, the others share the first one that is not scored. With 0 the calling thread
/// scores all. What is printed is the same. The call waits until a line is scored before it prints
/// it. If `Err` is returned, threads that score lines run on. After `Ok`, too, threads that helped
/// with a line may run on.
///
/// Returns whether no line is refused and no remark is made. If `Err` is returned, a prefix of
/// the whole output is printed.
pub fn write_lists<R: Threads + Wait, W: Write>(
    rt: &R,
    table: BoundTable,
    alloc: Global,
    writer: &mut W,
    criteria: Criteria,
    workers: u8,
    texts: &[Vec<u8>],
) -> Result<bool, ListFault>
    requires { criteria.limit ≤ most_empties }
    ensures written { OnOk result (Appends (W.contents writer.old) (W.contents writer.new)
        (lists_text table.scoring criteria (texts_of texts.now))) }
    ensures front { OnErr result (AppendsFront (W.contents writer.old) (W.contents writer.new)
        (lists_text table.scoring criteria (texts_of texts.now))) }
    ensures right { IfOk result (λ right. right
        ≡ lists_right table.scoring criteria (texts_of texts.now)) }
{
    let scorer = Arc::new(
        alloc,
        Scorer {
            table,
            criteria,
            running: AtomicU64::new(0),
        },
    )?;
    let mut queue = ChunkQueue {
        chunks: VecDeque::new(alloc),
        right: true,
        workers,
    };
    print_all(rt, writer, &scorer, alloc, &mut queue, texts)?;
    Ok(queue.right)
}
