//! Books of worked positions: what they hold, what is written for them, and what is found in them.

mod find;
mod write;

ghost use Rattle.std.specs.Prelude.{◌≡◌};

use super::worked::{
    BLACK_BOARD, CORNER_LEFT_OVER, Discs, EQUAL_CORNERS, LAST_CORNER, UNEQUAL_CORNERS, pos_of,
    task_of,
};
use bound_table::NoTable;
use endgame_search::{Solved, solve};
use othello_bits::Pos;
use othello_rules::{Scoring, Side};
use solved_book::Book;
use std::alloc::Global;
use std::process::Abort;

fn solved_of(rt: &impl Abort, position: Pos, scoring: Scoring) -> Solved
    ensures { result.scoring ≡ scoring }
{
    let task = task_of(rt, position, scoring);
    solve(&NoTable::new(task.scoring()), task)
}

// Adds a solved position, and says whether it was new. If memory is refused, the book has as many
// positions as before, and the position is added again.
fn is_added(book: &mut Book, solved: &Solved) -> bool
    requires { solved.now.scoring ≡ book.old.scoring }
    ensures { book.new.scoring ≡ book.old.scoring }
{
    let before = book.len();
    match book.add(solved) {
        Ok(is_new) => is_new,
        Err(_) => book.len() == before && book.add(solved) == Ok(true),
    }
}

// A position and its mover.
type Turn = (Discs, Side);

// A book of these positions, each of which is new.
fn book_of(rt: &impl Abort, alloc: Global, scoring: Scoring, turns: &[Turn]) -> Book
    ensures { result.scoring ≡ scoring }
{
    let mut book = Book::new(alloc, scoring);
    for (discs, side) in turns {
        let solved = solved_of(rt, pos_of(rt, *discs, *side), book.scoring());
        assert!(rt; is_added(&mut book, &solved));
    }
    book
}
