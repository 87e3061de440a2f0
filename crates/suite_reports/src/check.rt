//! How the scores that a line lists compare with the answer.

ghost use Rattle.std.specs.Prelude.{◌≡◌, Some};
ghost use Rattle.std.specs.List.{list_all};
ghost use Rattle.suite_reports.specs.Check.{are_best_in, check, check_by, complete_check, is_best_in};
ghost use Rattle.suite_reports.specs.Check.{lists_best, lists_square};
ghost use Rattle.suite_reports.specs.ReportText.{check_text};

use obf_text::{ListedMove, greatest_score};
use othello_rules::{Answer, Best, Square, has_square, squares_in};
use std::fmt;

/// How the scores that a line lists compare with the exact answer of its position. A report prints
/// the text of a check.
#[derive(Clone, Copy, PartialEq, Eq, Debug)]
pub enum Check {
    /// The greatest listed score is the answer's score, and each move listed with it is a best
    /// move; by `complete_check_of`, each best move is listed with it, too.
    Agree,
    /// The greatest listed score is another one, or a move listed with it is not a best move, or,
    /// by `complete_check_of`, a best move is not listed with it.
    Differ,
    /// The line lists no move with a score.
    Unlisted,
}

impl fmt::Display for Check {
    ghost output = { λ check. Some (check_text check) };

    #[tactic(auto, unfolding(crate::specs::ReportText::check_text))]
    fn fmt<W: fmt::Write>(&self, f: &mut fmt::Formatter<W>) -> fmt::Result {
        match self {
            Check::Agree => f.write_str("agree"),
            Check::Differ => f.write_str("differ"),
            Check::Unlisted => f.write_str("unlisted"),
        }
    }
}

// Whether a listed move is best: a square that is one of the best moves, a pass if the answer is
// a pass, or the end if the game is over.
fn is_best_in(best: Best, listed: ListedMove) -> bool
    ensures { result ≡ is_best_in best listed }
{
    match (best, listed) {
        (Best::Moves(mask), ListedMove::At(square)) => has_square(mask, square),
        (Best::Pass, ListedMove::Pass) | (Best::Over, ListedMove::Over) => true,
        _ => false,
    }
}

// Whether each move that is listed with this score is best.
fn are_best_in(best: Best, score: i8, listed: &[(ListedMove, i8)]) -> bool
    ensures { result ≡ are_best_in best score listed.now }
{
    listed
        .iter()
        .filter(|(_, listed_score)| *listed_score == score)
        .all(|(listed_move, _)| is_best_in(best, *listed_move))
}

/// Compares the moves and scores that a line lists with the exact answer of its position. Scores
/// are as the side to move sees them. Scores below the greatest are not tested.
#[tactic(auto, unfolding(crate::specs::Check::check, crate::specs::Check::agrees))]
pub fn check_of(listed: &[(ListedMove, i8)], answer: &Answer) -> Check
    ensures { result ≡ check listed.now answer.now }
{
    match greatest_score(listed) {
        None => Check::Unlisted,
        Some(greatest) => {
            if greatest == answer.score && are_best_in(answer.best, greatest, listed) {
                Check::Agree
            } else {
                Check::Differ
            }
        }
    }
}

// Whether the move to this square is listed with this score.
fn lists_square(listed: &[(ListedMove, i8)], score: i8, square: Square) -> bool
    ensures { result ≡ lists_square listed.now score square }
{
    listed.iter().any(|(listed_move, listed_score)| {
        *listed_score == score && listed_move.is_move_to(square)
    })
}

// Whether the move to each of the squares is listed with this score.
fn lists_squares(listed: &[(ListedMove, i8)], score: i8, squares: &[Square]) -> bool
    ensures { result ≡ list_all (lists_square listed.now score) squares.now }
{
    squares
        .iter()
        .all(|square| lists_square(listed, score, *square))
}

// Whether each best move is listed with the score. If the mover has to pass, or the game is
// over, there is nothing to choose, so nothing can be left out.
fn lists_best(listed: &[(ListedMove, i8)], score: i8, best: Best) -> bool
    ensures { result ≡ lists_best listed.now score best }
{
    match best {
        Best::Moves(mask) => lists_squares(listed, score, squares_in(mask).as_slice()),
        Best::Pass | Best::Over => true,
    }
}

/// Compares the moves and scores that a line lists with the exact answer of its position, as
/// `check_of` does, but a line that lists moves and leaves out a best one differs. So if a line of
/// a position with moves agrees, those that it lists with the score are exactly the best ones.
#[tactic(auto, unfolding(crate::specs::Check::check, crate::specs::Check::complete_check))]
pub fn complete_check_of(listed: &[(ListedMove, i8)], answer: &Answer) -> Check
    ensures { result ≡ complete_check listed.now answer.now }
{
    match check_of(listed, answer) {
        Check::Agree => {
            if lists_best(listed, answer.score, answer.best) {
                Check::Agree
            } else {
                Check::Differ
            }
        }
        check => check,
    }
}

/// `complete_check_of` for a line that has to list every best move, otherwise `check_of`.
pub(crate) fn check_by(complete: bool, listed: &[(ListedMove, i8)], answer: &Answer) -> Check
    ensures { result ≡ check_by complete listed.now answer.now }
{
    if complete {
        complete_check_of(listed, answer)
    } else {
        check_of(listed, answer)
    }
}
