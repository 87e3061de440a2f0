//! The part of one client of a run, and a law about the books of two runs. The body of a law is
//! empty: its contract is the law.

ghost use Rattle.std.specs.Prelude.{◌≡◌, List};
ghost use Rattle.othello_rules.specs.declared.scoring.Scoring.{Scoring};
ghost use Rattle.endgame_search.specs.Task.{TaskView};
ghost use Rattle.solved_book.specs.Books.{BookView};
ghost use Rattle.solved_book.specs.Order.{AreBookPositions};
ghost use Rattle.suite_runs.specs.Outcome.{IsBookOf};

pub use crate::client::client_part;

/// Two books of the same tasks under one scoring are equal, if the positions of each are canonical
/// and in rising order. So runs on the same files, under one scoring and one limit of empty
/// squares, make equal books, whatever their workers, tables, claims and gates. The contracts of
/// `Book::len` and `Book::write` say that the positions of a book are canonical and in rising
/// order.
pub fn books_are_one()
    ensures { (g : Scoring) (tasks : List TaskView) (a b : BookView)
        → IsBookOf g tasks a → IsBookOf g tasks b
        → AreBookPositions a.positions → AreBookPositions b.positions → a ≡ b }
{}
