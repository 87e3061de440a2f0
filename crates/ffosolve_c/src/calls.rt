//! The calls of `ffosolve.h`, in its order.

ghost use Rattle.std.specs.Prelude.{◌≡◌, ◌≢◌, ◌↔◌, ◌<◌, pos, Some, bit_and, length, map};
ghost use Rattle.othello_rules.specs.declared.discs.Side.TheVariants.{Black};
ghost use Rattle.othello_bits.specs.Pos.{moves_of, play_of, position_of, IsMove};
ghost use Rattle.othello_bits.specs.Symmetries.{canonical_of, first_symmetry, mask_image};
ghost use Rattle.othello_bits.specs.Symmetries.{place, symmetries};
ghost use Rattle.othello_bits.specs.declared.sym.Sym.{Sym};
ghost use Rattle.obf_text.specs.Obf.{Entry, Faulty, Holds, Meaning, Says, place_of};
ghost use Rattle.obf_text.specs.declared.line_fault.LineFault.{LineFault};
ghost use Rattle.ffosolve_c.specs.declared.call_refusal.CallRefusal.TheVariants as refusal;
ghost use Rattle.ffosolve_c.specs.CValues.{c_position, discs_at};
ghost use Rattle.ffosolve_c.specs.CValues.{AreAnswers, AreScores, AreScoresOfAll, IsAnswer};
ghost use Rattle.ffosolve_c.specs.Limits.{limit_of};
ghost use Rattle.ffosolve_c.specs.Lines.{c_line, c_listed, written_over, IsLineStatus, IsOfLine};
ghost use Rattle.ffosolve_c.specs.Refusals.{first_refused, request_refusal, list_refusal, call_status};
ghost use Rattle.ffosolve_c.specs.Refusals.{IsOfPosition, IsStatus};

use crate::answer::{FfosolveAnswer, possible_claim};
use crate::call_refusal::CallRefusal;
use crate::line::{FfosolveLine, c_line, place_or};
use crate::listed::{FfosolveListed, fill_listed};
use crate::many_positions::{answer_all, score_each};
use crate::one_position::answer_one;
use crate::position::{FfosolvePosition, play_move, position_of};
use crate::scores::{FfosolveMoveScores, score_all};
use crate::symmetry::{canonical_position, numbered_symmetry};
use bound_table::BoundTable;
use endgame_search::Task;
use obf_text::{Item, read_line};
use othello_rules::Scoring;
use program_settings::VERSION_NUMBER;
use std::alloc::Global;

/// Writes the answer of a position, by a search over a new table of `entries` entries. `scoring` is
/// 0 for `Winner`, 1 for `Discs` and 2 for `Sign`. The status is 0 if `answer` was written.
/// Otherwise `answer` is as it was, and the status is that of a `CallRefusal`: 1, 2, 4, 5 or 7. It
/// is never 7, out of memory, with 0 entries.
#[unsafe(no_mangle)]
pub extern "C" fn ffosolve_solve(
    alloc: Global,
    position: FfosolvePosition,
    scoring: u32,
    entries: usize,
    answer: &mut FfosolveAnswer,
) -> i32
    ensures status { IsStatus (request_refusal scoring entries position) result }
    ensures without_memory { entries ≡ 0 → result ≢ call_status refusal.NoMemory }
    ensures answer { result ≡ pos 0 → IsAnswer scoring position answer.new }
    ensures unchanged { result ≢ pos 0 → answer.new ≡ answer.old }
{
    match answer_one(alloc, position, scoring, entries, None) {
        Ok(found) => {
            *answer = found;
            0
        }
        Err(refused) => refused.status(),
    }
}

/// Writes the answer of a position as `ffosolve_solve` does, with its statuses, by a search that
/// tests `claim` first, unless its kind is not 0, 1 or 2 or its score is not from -64 to 64. Any
/// claim may be made: it changes how long the search takes, but never the answer.
#[unsafe(no_mangle)]
pub extern "C" fn ffosolve_confirm(
    alloc: Global,
    position: FfosolvePosition,
    scoring: u32,
    entries: usize,
    claim: FfosolveAnswer,
    answer: &mut FfosolveAnswer,
) -> i32
    ensures status { IsStatus (request_refusal scoring entries position) result }
    ensures without_memory { entries ≡ 0 → result ≢ call_status refusal.NoMemory }
    ensures answer { result ≡ pos 0 → IsAnswer scoring position answer.new }
    ensures unchanged { result ≢ pos 0 → answer.new ≡ answer.old }
{
    match answer_one(alloc, position, scoring, entries, possible_claim(claim)) {
        Ok(found) => {
            *answer = found;
            0
        }
        Err(refused) => refused.status(),
    }
}

/// Writes the answer of each position at its index in `answers`, by searches over one new table of
/// `entries` entries. `scoring` is 0 for `Winner`, 1 for `Discs` and 2 for `Sign`. The status is 0
/// if all of `answers` was written. Otherwise `answers` is as it was, and the status is that of a
/// `CallRefusal`: 1, 2, 3, 4, 5 or 7; 3 if there are not as many answers as positions. It is never
/// 7, out of memory, with 0 entries. With 4 and 5 `at` is the index, from 0, of the first position
/// that is refused; otherwise `at` is as it was.
#[unsafe(no_mangle)]
pub extern "C" fn ffosolve_solve_all(
    alloc: Global,
    positions: &[FfosolvePosition],
    scoring: u32,
    entries: usize,
    answers: &mut [FfosolveAnswer],
    at: &mut usize,
) -> i32
    ensures status { IsStatus
        (list_refusal scoring entries positions.now (length answers.old)) result }
    ensures without_memory { entries ≡ 0 → result ≢ call_status refusal.NoMemory }
    ensures answers { result ≡ pos 0 → AreAnswers scoring positions.now answers.new }
    ensures unchanged { result ≢ pos 0 → answers.new ≡ answers.old }
    ensures refused { IsOfPosition result → first_refused positions.now ≡ Some at.new }
    ensures at_unchanged { (IsOfPosition result → ⊥) → at.new ≡ at.old }
{
    match answer_all(alloc, positions, scoring, entries, answers, at) {
        Ok(()) => 0,
        Err(refused) => refused.status(),
    }
}

/// Writes the mask of the mover's moves, with square n as bit n, and the score of each move at its
/// square's number, with 127 at the other squares. A score is as the mover sees it: in discs from
/// -64 to 64, or 1, 0 or -1 under `Sign`. All searches use one new table of `entries` entries.
/// `scoring` is 0 for `Winner`, 1 for `Discs` and 2 for `Sign`. The status is 0 if `scores` and
/// `moves` were written. Otherwise they are as they were, and the status is that of a `CallRefusal`:
/// 1, 2, 4, 5 or 7. It is never 7, out of memory, with 0 entries.
#[unsafe(no_mangle)]
pub extern "C" fn ffosolve_move_scores(
    alloc: Global,
    position: FfosolvePosition,
    scoring: u32,
    entries: usize,
    scores: &mut [i8; 64],
    moves: &mut u64,
) -> i32
    ensures status { IsStatus (request_refusal scoring entries position) result }
    ensures without_memory { entries ≡ 0 → result ≢ call_status refusal.NoMemory }
    ensures scores { result ≡ pos 0 → AreScores scoring position scores.new }
    ensures moves { result ≡ pos 0 → moves.new ≡ moves_of (discs_at position) }
    ensures unchanged { result ≢ pos 0 → scores.new ≡ scores.old }
    ensures moves_unchanged { result ≢ pos 0 → moves.new ≡ moves.old }
{
    match score_all(alloc, position, scoring, entries, scores) {
        Ok(found) => {
            *moves = found;
            0
        }
        Err(refused) => refused.status(),
    }
}

/// Writes the scores of all moves of each position, as `ffosolve_move_scores` does, and the mask of
/// its moves at its index in `found`, by searches over one new table of `entries` entries. The
/// status, `at` and what stays as it was are as in `ffosolve_solve_all`.
#[unsafe(no_mangle)]
pub extern "C" fn ffosolve_move_scores_all(
    alloc: Global,
    positions: &[FfosolvePosition],
    scoring: u32,
    entries: usize,
    found: &mut [FfosolveMoveScores],
    at: &mut usize,
) -> i32
    ensures status { IsStatus
        (list_refusal scoring entries positions.now (length found.old)) result }
    ensures without_memory { entries ≡ 0 → result ≢ call_status refusal.NoMemory }
    ensures scores { result ≡ pos 0 → AreScoresOfAll scoring positions.now found.new }
    ensures unchanged { result ≢ pos 0 → found.new ≡ found.old }
    ensures refused { IsOfPosition result → first_refused positions.now ≡ Some at.new }
    ensures at_unchanged { (IsOfPosition result → ⊥) → at.new ≡ at.old }
{
    match score_each(alloc, positions, scoring, entries, found, at) {
        Ok(()) => 0,
        Err(refused) => refused.status(),
    }
}

/// Writes the mask of the mover's moves: square n is bit n, so A1 is bit 0 and H8 bit 63. The
/// status is 0; or 4, `SharedSquare`, and then `moves` is as it was.
#[unsafe(no_mangle)]
pub extern "C" fn ffosolve_moves(position: FfosolvePosition, moves: &mut u64) -> i32
    ensures done { (result ≡ pos 0) ↔ (bit_and position.own position.opp ≡ 0) }
    ensures shared { result ≢ pos 0 → result ≡ call_status refusal.SharedSquare }
    ensures moves { result ≡ pos 0 → moves.new ≡ moves_of (discs_at position) }
    ensures unchanged { result ≢ pos 0 → moves.new ≡ moves.old }
{
    match position_of(position) {
        Ok(position) => {
            *moves = position.moves();
            0
        }
        Err(refused) => refused.status(),
    }
}

/// Writes the position after the mover's move to `square`, from 0 for A1 to 63 for H8; the other
/// side is the mover of that position. The status is 0; 4, `SharedSquare`; or 6, `NoMove`, if
/// the mover can't move to the square. With 4 and 6 `after` is as it was.
#[unsafe(no_mangle)]
pub extern "C" fn ffosolve_play(
    position: FfosolvePosition,
    square: u8,
    after: &mut FfosolvePosition,
) -> i32
    ensures shared { (result ≡ call_status refusal.SharedSquare)
        ↔ (bit_and position.own position.opp ≢ 0) }
    ensures legal { result ≡ pos 0 → IsMove (discs_at position) square }
    ensures no_move { result ≡ call_status refusal.NoMove → IsMove (discs_at position) square → ⊥ }
    ensures others { result ≢ pos 0 → result ≢ call_status refusal.SharedSquare
        → result ≡ call_status refusal.NoMove }
    ensures after { result ≡ pos 0 → after.new ≡ c_position (play_of (discs_at position) square) }
    ensures unchanged { result ≢ pos 0 → after.new ≡ after.old }
{
    match play_move(position, square) {
        Ok(position) => {
            *after = position;
            0
        }
        Err(refused) => refused.status(),
    }
}

/// Writes the canonical position of all images of the position, and the number of the first symmetry
/// that leads to it. The canonical position is the image with the least pair (own, opp), compared as
/// numbers, own first. The numbers of symmetries are those of their places in `Sym::all`, from 0.
/// The status is 0; or 4, `SharedSquare`, and then `canonical` and `symmetry` are as they were.
#[unsafe(no_mangle)]
pub extern "C" fn ffosolve_canonical(
    position: FfosolvePosition,
    canonical: &mut FfosolvePosition,
    symmetry: &mut u32,
) -> i32
    ensures done { (result ≡ pos 0) ↔ (bit_and position.own position.opp ≡ 0) }
    ensures shared { result ≢ pos 0 → result ≡ call_status refusal.SharedSquare }
    ensures canonical { result ≡ pos 0
        → canonical.new ≡ c_position (canonical_of (discs_at position)) }
    ensures symmetry { result ≡ pos 0
        → symmetry.new ≡ place (first_symmetry (position_of Black (discs_at position))) }
    ensures unchanged { result ≢ pos 0 → canonical.new ≡ canonical.old }
    ensures symmetry_unchanged { result ≢ pos 0 → symmetry.new ≡ symmetry.old }
{
    match canonical_position(position) {
        Ok((position, number)) => {
            *canonical = position;
            *symmetry = number;
            0
        }
        Err(refused) => refused.status(),
    }
}

/// Writes the mask of the squares to which the symmetry with the number `symmetry` sends the squares
/// of a mask. Square n is bit n. The status is 0; or 12, `UnknownSymmetry`, if the number is above 7,
/// and then `image` is as it was.
#[unsafe(no_mangle)]
pub extern "C" fn ffosolve_image(mask: u64, symmetry: u32, image: &mut u64) -> i32
    ensures done { (result ≡ pos 0) ↔ (symmetry < length symmetries) }
    ensures unknown { result ≢ pos 0 → result ≡ call_status refusal.UnknownSymmetry }
    ensures image { (s : Sym) → symmetry ≡ place s → image.new ≡ mask_image s mask }
    ensures unchanged { result ≢ pos 0 → image.new ≡ image.old }
{
    match numbered_symmetry(symmetry) {
        Some(sym) => {
            *image = sym.mask(mask);
            0
        }
        None => CallRefusal::UnknownSymmetry.status(),
    }
}

/// Reads one line of OBF text, without its end, as `obf_text::read_line` does. The status is 0 if
/// the line holds a position. It is written to `line`, and its listed moves to `listed` from the
/// start, as many as there is room for: `line` says how many there are. Otherwise both are as they
/// were, and the status is 8 if the line is blank or a comment; 9 if it ends before its 64th
/// square; 10 if a byte is not a square; 11 if the side to move is missing; or 7, out of
/// memory, but never if no move is listed. With 9 `at` is the number of squares, and with 10 and
/// 11 the column, counted from 1 in bytes; otherwise it is as it was.
#[unsafe(no_mangle)]
pub extern "C" fn ffosolve_read_line(
    alloc: Global,
    text: &[u8],
    line: &mut FfosolveLine,
    listed: &mut [FfosolveListed],
    at: &mut usize,
) -> i32
    ensures status { (meaning : Meaning) → Says text.now meaning → IsLineStatus meaning result }
    ensures line { (entry : Entry) → Says text.now (Holds entry) → result ≡ pos 0
        → line.new ≡ c_line entry }
    ensures listed { (entry : Entry) → Says text.now (Holds entry) → result ≡ pos 0
        → listed.new ≡ written_over listed.old (map c_listed entry.listed) }
    ensures at { (fault : LineFault) → Says text.now (Faulty fault) → at.new ≡ place_of fault }
    ensures unchanged { result ≢ pos 0 → line.new ≡ line.old }
    ensures listed_unchanged { result ≢ pos 0 → listed.new ≡ listed.old }
    ensures at_unchanged { (IsOfLine result → ⊥) → at.new ≡ at.old }
{
    match read_line(alloc, text) {
        Ok(Item::Skip) => CallRefusal::Skipped.status(),
        Ok(Item::Entry(entry)) => {
            *line = c_line(&entry);
            fill_listed(&entry.listed, listed);
            0
        }
        Err(fault) => {
            *at = place_or(fault, *at);
            CallRefusal::of_fault(fault).status()
        }
    }
}

/// A limit by its number: 0 is the most entries of a table, 1 the most empty squares of a position
/// that is solved, 2 the number of scorings. For any other number it is 0.
#[unsafe(no_mangle)]
pub extern "C" fn ffosolve_limit(limit: u32) -> usize
    ensures { result ≡ limit_of limit }
{
    match limit {
        0 => BoundTable::MOST_ENTRIES,
        1 => usize::from(Task::MOST_EMPTIES),
        2 => Scoring::ALL.len(),
        _ => 0,
    }
}

/// The version of the library as a number, `VERSION_NUMBER`.
#[unsafe(no_mangle)]
pub extern "C" fn ffosolve_version() -> u32
    ensures { result ≡ VERSION_NUMBER }
{
    VERSION_NUMBER
}
