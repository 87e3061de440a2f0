//! What threads that search one position foresee, each for all.

ghost use Rattle.std.specs.Prelude.{◌≡◌};
ghost use Rattle.othello_rules.specs.declared.scoring.Scoring.TheVariants.{Winner};

use super::super::worked::{Discs, pos_of, task_of};
use bound_table::{Advice, BoundTable, Bounds, Foreseen, Range};
use endgame_search::{Task, exact_value, solve};
use othello_bits::Pos;
use othello_rules::{Scoring, Side};
use std::alloc::Global;
use std::cell::Cell;
use std::test::Fail;

// X---X--- -X-XX--- --XXXO-- ---XXOXX XXXXXOX- XXXXXOXX XXXXXXX- XXXXXXXX: 20 empty squares
const TWENTY_EMPTY_SQUARES: Discs = (0xff7f_df5f_d81c_1a11, 0x2020_2020_0000);

// -------O X--XO-OX OXX-OOX- OOXXOXO- OOXXOXXX OOOOOXOO OOO-XXOO -XOXX-XO: 16 empty squares
const SIXTEEN_EMPTY_SQUARES: Discs = (0x5a30_20ec_2c46_8900, 0x84c7_df13_5331_5080);

// Says of each position what others have noted under numbers that are no less than `first`, or else
// what the table has noted, and counts what is noted, and the evaluations.
#[derive(Drop)]
struct Notes {
    table: BoundTable,
    by_others: Option<Foreseen>,
    first: u16,
    noted: Cell<u32>,
    evaluations: Cell<u32>,
}

impl Bounds for Notes {
    ghost scoring = { λ notes. notes.table.scoring };

    fn scoring(&self) -> Scoring {
        self.table.scoring()
    }

    fn probe(&self, position: &Pos) -> Option<Range> {
        self.table.probe(position)
    }

    fn store(&self, position: &Pos, range: Range) {
        self.table.store(position, range);
    }
}

impl Advice for Notes {
    fn foreseen(&self, position: &Pos, respect: u16) -> Foreseen {
        match self.by_others {
            Some(foreseen) if respect >= self.first => foreseen,
            _ => self.table.foreseen(position, respect),
        }
    }

    fn note_foreseen(&self, position: &Pos, respect: u16, foreseen: Foreseen) {
        self.noted.set(self.noted.get().wrapping_add(1));
        self.table.note_foreseen(position, respect, foreseen);
    }

    fn note_evaluation(&self) {
        self.evaluations.set(self.evaluations.get().wrapping_add(1));
    }
}

// How often something is noted, and how many evaluations are made, if others have noted `by_others`
// of each position.
fn count(alloc: Global, task: Task, by_others: Option<Foreseen>) -> Result<(u32, u32), Fail>
    requires { task.scoring ≡ Winner }
{
    let notes = Notes {
        table: BoundTable::new(alloc, 65_536, Scoring::Winner)?,
        by_others,
        first: 0,
        noted: Cell::new(0),
        evaluations: Cell::new(0),
    };
    let _ = solve(&notes, task);
    Ok((notes.noted.get(), notes.evaluations.get()))
}

// What is noted is not looked at again. A thread looks itself at what others have begun, once.
#[test]
fn what_threads_foresee_is_found_once(rt: HostRuntime) -> Result<(), Fail> {
    let alloc = rt.alloc();
    let position = pos_of(&rt, TWENTY_EMPTY_SQUARES, Side::Black);
    let task = task_of(&rt, position, Scoring::Winner);
    let (_, plain) = count(alloc, task, Some(Foreseen::Unkept))?;
    let (_, begun) = count(alloc, task, Some(Foreseen::Begun))?;
    let (_, found) = count(alloc, task, Some(Foreseen::Worth(512)))?;
    let (noted, own) = count(alloc, task, None)?;
    assert!(rt; begun == plain);
    assert!(rt; found < plain);
    assert!(rt; own <= plain && noted > 0);
    Ok(())
}

// The number under which threads note what the root's moves are worth for a guess by 6 plies. Moves
// below have lower numbers.
const GUESS_AT_ROOT: u16 = 1_006;

// How many evaluations a guess of the value takes, which is in the table, so that nothing is
// searched.
fn count_of_guess(notes: &Notes, position: Pos) -> u32 {
    notes.evaluations.set(0);
    let _ = exact_value(notes, position);
    notes.evaluations.get()
}

// A guess takes what is noted of the root's moves and, where nothing is, of moves below. What others
// have begun is looked at once.
#[test]
fn what_threads_guess_is_found_at_each_ply(rt: HostRuntime) -> Result<(), Fail> {
    let position = pos_of(&rt, SIXTEEN_EMPTY_SQUARES, Side::Black);
    let mut notes = Notes {
        table: BoundTable::new(rt.alloc(), 65_536, Scoring::Winner)?,
        by_others: None,
        first: 0,
        noted: Cell::new(0),
        evaluations: Cell::new(0),
    };
    let _ = exact_value(&notes, position);
    let known = count_of_guess(&notes, position);
    notes.by_others = Some(Foreseen::Unkept);
    let alone = count_of_guess(&notes, position);
    notes.by_others = Some(Foreseen::Begun);
    let begun = count_of_guess(&notes, position);
    notes.by_others = Some(Foreseen::Unknown);
    notes.first = GUESS_AT_ROOT;
    notes.noted.set(0);
    let known_below = count_of_guess(&notes, position);
    assert!(rt; known < alone && known_below < alone && begun == alone && alone > 0);
    assert!(rt; notes.noted.get() > 0);
    Ok(())
}
