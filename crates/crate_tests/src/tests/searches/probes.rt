//! What a search stores, and which stored ranges end it.

ghost use Rattle.std.specs.Prelude.{◌≡◌};
ghost use Rattle.endgame_search.specs.Windows.{IsWindow};

use super::{
    BLACK_BOARD, Discs, H1, LAST_CORNER, ProbeCounter, TEN_EMPTY_SQUARES, UNEQUAL_CORNERS, after,
    count_probes, pos_of, task_of,
};
use bound_table::{BoundTable, Bounds, NoTable, Range};
use endgame_search::{Claim, Task, confirm, exact_value, solve, value_in};
use othello_bits::Pos;
use othello_rules::{Answer, Best, Scoring, Side, Square};
use std::alloc::Global;
use std::process::Abort;
use std::test::Fail;

// XOOO---- and seven empty rows. Black's one move, E1, ends the game.
const SIXTY_EMPTY_SQUARES: Discs = (0x1, 0xe);

// Stores the value of a position.
fn store_value(table: &BoundTable, position: Pos) {
    let score = value_in(table, position, -65, 65);
    let exact = Range::new(score, score).unwrap();
    table.store(&position, exact);
}

// Whether one probe shows the value 62, and the best move, H1, takes more probes.
fn is_62_at_h1(counter: &ProbeCounter, task: Task) -> bool
    requires { task.scoring ≡ counter.now.table.scoring }
{
    value_in(counter, task.pos(), -65, 65) == 62
        && counter.probes.get() == 1
        && solve(counter, task).answer().best == Best::Moves(H1)
        && counter.probes.get() > 4
}

fn is_stored_value_returned(rt: &impl Abort, alloc: Global, position: Pos) -> bool {
    let counter = count_probes(rt, alloc, 1, [position, position]);
    store_value(&counter.table, position);
    is_62_at_h1(&counter, task_of(rt, position, Scoring::Winner))
}

#[test]
fn a_stored_value_is_returned(rt: HostRuntime) {
    let position = pos_of(&rt, UNEQUAL_CORNERS, Side::Black);
    assert!(rt; is_stored_value_returned(&rt, rt.alloc(), position));
}

// A scoring, and the ends of a window.
#[derive(Clone, Copy)]
struct Asked {
    scoring: Scoring,
    low: i8,
    high: i8,
}

// Whether a new table of one entry shows this range of the position after a call of `value_in`.
fn is_stored_as(
    rt: &impl Abort,
    alloc: Global,
    position: Pos,
    asked: Asked,
    least: i8,
    most: i8,
) -> bool
    requires { IsWindow asked.low asked.high }
{
    let table = BoundTable::new(alloc, 1, asked.scoring).expect(rt, "memory");
    let _ = value_in(&table, position, asked.low, asked.high);
    table.probe(&position) == Range::new(least, most)
}

fn ask(scoring: Scoring, low: i8, high: i8) -> Asked
    ensures { (result.low ≡ low) × (result.high ≡ high) }
{
    Asked { scoring, low, high }
}

fn by_winner(low: i8, high: i8) -> Asked
    ensures { (result.low ≡ low) × (result.high ≡ high) }
{
    ask(Scoring::Winner, low, high)
}

#[test]
fn results_are_stored_as_the_window_says(rt: HostRuntime) {
    let alloc = rt.alloc();
    // Two empty squares, and the value 62.
    let small = pos_of(&rt, UNEQUAL_CORNERS, Side::Black);
    assert!(rt; is_stored_as(&rt, alloc, small, by_winner(-65, 65), 62, 62));
    assert!(rt; is_stored_as(&rt, alloc, small, by_winner(61, 63), 62, 62));
    assert!(rt; is_stored_as(&rt, alloc, small, by_winner(62, 65), -64, 62));
    assert!(rt; is_stored_as(&rt, alloc, small, by_winner(61, 62), 62, 64));
    let over = pos_of(&rt, BLACK_BOARD, Side::White);
    assert!(rt; is_stored_as(&rt, alloc, over, by_winner(-65, 65), -64, -64));
    let sixty = pos_of(&rt, SIXTY_EMPTY_SQUARES, Side::Black);
    assert!(rt; is_stored_as(&rt, alloc, sixty, by_winner(-65, 65), 64, 64));
}

#[test]
fn results_are_stored_under_each_scoring(rt: HostRuntime) {
    let alloc = rt.alloc();
    let small = pos_of(&rt, UNEQUAL_CORNERS, Side::Black);
    assert!(rt; is_stored_as(&rt, alloc, small, ask(Scoring::Discs, -65, 65), 62, 62));
    // With White to move White wins by 6. With Black to move Black loses by 10.
    let (won, lost) = (
        pos_of(&rt, TEN_EMPTY_SQUARES, Side::White),
        pos_of(&rt, TEN_EMPTY_SQUARES, Side::Black),
    );
    assert!(rt; is_stored_as(&rt, alloc, won, ask(Scoring::Sign, -65, 65), 1, 1));
    assert!(rt; is_stored_as(&rt, alloc, won, ask(Scoring::Sign, 0, 1), 1, 64));
    assert!(rt; is_stored_as(&rt, alloc, won, ask(Scoring::Sign, 1, 2), -64, 1));
    assert!(rt; is_stored_as(&rt, alloc, lost, ask(Scoring::Sign, -65, 65), -1, -1));
}

// Whether `solve`, `confirm` and `exact_value` store nothing for a small position.
fn stores_nothing(counter: &ProbeCounter, task: Task) -> bool
    requires { task.scoring ≡ counter.now.table.scoring }
{
    let right = solve(counter, task).answer();
    let claim = Claim {
        score: right.score,
        best: right.best,
    };
    let wrong = Claim {
        score: -64,
        best: right.best,
    };
    confirm(counter, task, claim) == confirm(counter, task, wrong)
        && exact_value(counter, task.pos()) == right.score
        && counter.stores.get() == 0
}

#[test]
fn a_small_position_is_solved_without_a_store(rt: HostRuntime) {
    let position = pos_of(&rt, UNEQUAL_CORNERS, Side::Black);
    let counter = count_probes(&rt, rt.alloc(), 1, [position, position]);
    assert!(rt; stores_nothing(&counter, task_of(&rt, position, Scoring::Winner)));
}

// Whether a search takes more than one probe and stores the position last: a second search ends at
// its first probe.
fn is_value_stored(counter: &ProbeCounter, position: Pos) -> bool {
    let score = exact_value(counter, position);
    counter.probes.replace(0) > 1
        && exact_value(counter, position) == score
        && counter.probes.get() == 1
}

#[test]
fn values_are_stored(rt: HostRuntime) {
    let position = pos_of(&rt, TEN_EMPTY_SQUARES, Side::White);
    let counter = count_probes(&rt, rt.alloc(), 1, [position, position.pass()]);
    assert!(rt; is_value_stored(&counter, position));
}

// Whether one probe ends the search of the window.
fn ends_at_once(counter: &ProbeCounter, position: Pos, low: i8, high: i8) -> bool
    requires { IsWindow low high }
{
    counter.probes.set(0);
    let _ = value_in(counter, position, low, high);
    counter.probes.get() == 1
}

// Whether a search ends at its first probe where the value 62 is stored as a lower bound and the
// window lies below, and where it is stored as an upper bound and the window lies above.
fn do_ranges_end(counter: &ProbeCounter, position: Pos) -> bool {
    let value = value_in(counter, position, -65, 65);
    let table = &counter.table;
    table.store(&position, Range::new(value, 64).unwrap());
    if !ends_at_once(counter, position, 0, 62) || !ends_at_once(counter, position, 0, 60) {
        return false;
    }
    table.store(&position, Range::new(-64, value).unwrap());
    ends_at_once(counter, position, 62, 64) && ends_at_once(counter, position, 63, 65)
}

#[test]
fn ranges_beyond_the_window_end_a_search(rt: HostRuntime) {
    let position = pos_of(&rt, UNEQUAL_CORNERS, Side::Black);
    let counter = count_probes(&rt, rt.alloc(), 1, [position, position]);
    assert!(rt; do_ranges_end(&counter, position));
}

// Whether a search of the window is stored, before `value_in` stores its result once more.
fn is_stored(counter: &ProbeCounter, position: Pos, low: i8, high: i8) -> bool
    requires { IsWindow low high }
{
    counter.stored.set(0);
    let _ = value_in(counter, position, low, high);
    counter.stored.get() == 2
}

// Whether searches of the null windows below and above the value are stored.
fn are_cutoffs_stored(counter: &ProbeCounter, position: Pos) -> bool {
    let value = value_in(&NoTable::new(Scoring::Winner), position, -65, 65);
    is_stored(counter, position, value - 1, value) && is_stored(counter, position, value, value + 1)
}

#[test]
fn cutoffs_are_stored(rt: HostRuntime) {
    let position = pos_of(&rt, TEN_EMPTY_SQUARES, Side::Black);
    let counter = count_probes(&rt, rt.alloc(), 1, [position, position]);
    assert!(rt; are_cutoffs_stored(&counter, position));
    let position = pos_of(&rt, SIXTY_EMPTY_SQUARES, Side::Black);
    let counter = count_probes(&rt, rt.alloc(), 1, [position, position]);
    assert!(rt; is_stored(&counter, position, 63, 64));
}

#[test]
fn fewer_empty_squares_are_shown_after_more(rt: HostRuntime) -> Result<(), Fail> {
    let table = BoundTable::new(rt.alloc(), 64, Scoring::Winner)?;
    let sixty = pos_of(&rt, SIXTY_EMPTY_SQUARES, Side::Black);
    let small = pos_of(&rt, UNEQUAL_CORNERS, Side::Black);
    assert!(rt; value_in(&table, sixty, -65, 65) == 64 && value_in(&table, small, -65, 65) == 62);
    assert!(rt; table.probe(&small) == Range::new(62, 62));
    assert!(rt; table.probe(&sixty) == Range::new(64, 64));
    Ok(())
}

// Whether a right score is tested: that takes fewer probes than to search without a claim, whatever
// is claimed of the moves.
fn is_claim_tested(counter: &ProbeCounter, task: Task) -> bool
    requires { task.scoring ≡ counter.now.table.scoring }
{
    let solved = solve(counter, task);
    let probes = counter.probes.replace(0);
    let Answer { score, best } = solved.answer();
    for best in [best, Best::Over] {
        let confirmed = confirm(counter, task, Claim { score, best });
        if confirmed != solved || counter.probes.replace(0) >= probes {
            return false;
        }
    }
    true
}

#[test]
fn a_right_claim_saves_probes(rt: HostRuntime) {
    let position = pos_of(&rt, TEN_EMPTY_SQUARES, Side::Black);
    let counter = count_probes(&rt, rt.alloc(), 0, [position, position]);
    assert!(rt; is_claim_tested(&counter, task_of(&rt, position, Scoring::Winner)));
}

// Whether a search of a null window probes the position itself first: its stored value ends the
// search.
fn is_probed_first(rt: &impl Abort, alloc: Global, discs: Discs, side: Side) -> bool {
    let position = pos_of(rt, discs, side);
    let counter = count_probes(rt, alloc, 1, [position, position]);
    let _ = value_in(&counter.table, position, -65, 65);
    ends_at_once(&counter, position, 0, 1) && counter.seen[0].get()
}

#[test]
fn few_empty_squares_are_probed_first(rt: HostRuntime) {
    // One empty square where Black moves, one where White passes, and two empty squares.
    assert!(rt; is_probed_first(&rt, rt.alloc(), LAST_CORNER, Side::Black));
    assert!(rt; is_probed_first(&rt, rt.alloc(), LAST_CORNER, Side::White));
    assert!(rt; is_probed_first(&rt, rt.alloc(), UNEQUAL_CORNERS, Side::Black));
}

#[test]
fn the_last_square_is_probed_before_and_after_a_pass(rt: HostRuntime) {
    // After H1 White has no move, and Black has A1.
    let position = pos_of(&rt, UNEQUAL_CORNERS, Side::Black);
    let stuck = after(&rt, position, Square::at(7));
    let counter = count_probes(&rt, rt.alloc(), 0, [stuck, stuck.pass()]);
    // H1, which is worth 62, is searched first.
    let _ = value_in(&counter, position, 60, 61);
    assert!(rt; counter.seen[0].get());
    assert!(rt; counter.seen[1].get());
}

// XXXXXO-X XXOXOOX- XOXO-XOX OXOOOXX- -OOXXO-- OOXXX-O- OXXXXXXX -XX-X-X-: its one best move, A5, is
// searched fourth of eight, and is worth 6.
const THIRTEEN_EMPTY_SQUARES: Discs = (0x56fe_1c18_62a5_4b9f, 0x0001_4326_1d4a_3420);

// Whether the stored value of the position after a move of eight ends a search before any of the
// eight is searched: the position itself is probed, as the first of all and as one that is searched,
// and at most those after its moves.
fn is_child_seen(counter: &ProbeCounter, position: Pos, child: Pos) -> bool {
    store_value(&counter.table, child);
    value_in(counter, position, 5, 6) == 6 && counter.probes.get() <= 10
}

#[test]
fn children_are_probed_before_one_is_searched(rt: HostRuntime) {
    let position = pos_of(&rt, THIRTEEN_EMPTY_SQUARES, Side::Black);
    let counter = count_probes(&rt, rt.alloc(), 1, [position, position]);
    assert!(rt; is_child_seen(&counter, position, after(&rt, position, Square::at(32))));
}
