//! A position with its listed moves, as a line holds it.

ghost use Rattle.std.specs.Prelude.{◌≡◌, ◌↔◌, [], map, IsNone, IfSome};
ghost use Rattle.std.specs.Int.{int_max};
ghost use Rattle.std.specs.List.{fold};
ghost use Rattle.obf_text.specs.Fields.{greatest_listed, is_move_to};

use othello_rules::{Grid, Square};

/// A move that a line lists: a square, a pass or the end of the game.
#[derive(Clone, Copy, PartialEq, Eq, Debug)]
pub enum ListedMove {
    /// The side to move puts a disc on this square.
    At(Square),
    /// The side to move passes. It is written `PS`.
    Pass,
    /// The game is over. It is written `--`.
    Over,
}

impl ListedMove {
    /// Whether this is the move to the square.
    pub fn is_move_to(self, square: Square) -> bool
        ensures { result ≡ is_move_to self square }
    {
        match self {
            ListedMove::At(other) => other == square,
            _ => false,
        }
    }
}

impl Default for ListedMove {
    fn default() -> ListedMove {
        ListedMove::Pass
    }
}

/// A position, and the moves that its line lists.
#[derive(Debug, Drop)]
pub struct Line {
    /// The position, with the side to move.
    pub grid: Grid,
    /// The listed moves in their order, each with its score as the side to move sees it, from -64
    /// to 64. Any move and any such score may be listed.
    pub listed: Vec<(ListedMove, i8)>,
}

/// What a line without a fault says.
#[derive(Debug, Drop)]
pub enum Item {
    /// No position: the line is blank or a comment.
    Skip,
    /// A position with its listed moves.
    Entry(Line),
}

// The greatest score of one field and the other fields.
fn greatest_of(first: &(ListedMove, i8), others: &[(ListedMove, i8)]) -> i8
    ensures { result ≡ fold int_max first.now.1 (map (λ f. f.1) others.now) }
{
    let (_, mut greatest) = *first;
    for (_, score) in others {
        greatest = greatest.max(*score);
    }
    greatest
}

/// The greatest listed score. None if no move is listed.
#[tactic(auto, unfolding(othello_rules::specs::Value::greatest))]
pub fn greatest_score(listed: &[(ListedMove, i8)]) -> Option<i8>
    ensures none { IsNone result ↔ (listed.now ≡ []) }
    ensures greatest { IfSome result (λ score. score ≡ greatest_listed listed.now) }
{
    let (first, others) = listed.split_first()?;
    Some(greatest_of(first, others))
}
