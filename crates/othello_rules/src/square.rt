//! Squares and their names.

ghost use Rattle.std.specs.Prelude.{◌≡◌, ◌<◌, ◌≤◌, ◌↔◌, IsSome, IfSome, Some, ℕ};
ghost use Rattle.othello_rules.specs.Board.{name_of, IsNameOf};
ghost use Rattle.othello_rules.specs.Board.{square_after, squares, steps_to_edge};

use crate::direction::Direction;
use std::marker::Model;

/// One of the 64 squares. Its number is `column + 8 * row`, both from 0: A1 is 0, H1 is 7, A8 is 56
/// and H8 is 63. Contracts see the number. The default is A1.
#[derive(Clone, Copy, PartialEq, Eq, PartialOrd, Ord, Debug)]
pub struct Square {
    index: u8,
}

impl Model for Square {
    ghost use Rattle.std.specs.Prelude.{ℕ, ◌<◌};

    ghost Value = { ℕ };

    ghost view = { λ s. s.index };

    ghost invariant = { λ s. s.index < 64 };

    ghost inverse = { λ n. record { index = n } };
}

impl Default for Square {
    ghost is_default = { λ square. square ≡ 0 };

    fn default() -> Square {
        Square::at(0)
    }
}

impl Square {
    /// The square of a number: A1 is 0, H8 is 63. None from 64 up.
    pub fn new(number: u8) -> Option<Square>
        ensures valid { IsSome result ↔ (number < 64) }
        ensures value { IfSome result (λ s. s ≡ number) }
    {
        if number < 64 {
            Some(Square::at(number))
        } else {
            None
        }
    }

    /// The square of a number below 64: A1 is 0, H8 is 63.
    pub fn at(number: u8) -> Square
        requires { number < 64 }
        ensures { result ≡ number }
    {
        Square { index: number }
    }

    /// All 64 squares, in the order of their numbers.
    pub fn all() -> [Square; 64]
        ensures { result ≡ squares }
    {
        let mut all = [Square::default(); 64];
        for number in 0..64 {
            all[number] = Square::at(number as u8);
        }
        all
    }

    /// The square's number, from 0 to 63.
    pub fn number(self) -> u8
        ensures value { result ≡ self }
        ensures on_board { result < 64 }
    {
        self.index
    }

    // The number of steps from this square to the edge in a direction.
    pub(crate) fn steps_to_edge(self, direction: Direction) -> u8
        ensures value { result ≡ steps_to_edge direction self }
        ensures below { result < 8 }
    {
        let along_columns = direction.column.steps_along(self.number() % 8);
        let along_rows = direction.row.steps_along(self.number() / 8);
        along_columns.min(along_rows)
    }

    // The square `steps` steps from this one in a direction.
    pub(crate) fn step(self, direction: Direction, steps: u8) -> Square
        requires { steps ≤ steps_to_edge direction self }
        ensures value { result ≡ square_after direction self steps }
    {
        let column = direction.column.advance(self.number() % 8, steps);
        let row = direction.row.advance(self.number() / 8, steps);
        Square::at(column + 8 * row)
    }

    /// The square's name, two bytes: the letter of its column, `A` to `H`, and the digit of its
    /// row, `1` to `8`.
    #[tactic(auto, unfolding(crate::specs::Board::name_of))]
    pub fn name(self) -> [u8; 2]
        ensures { result ≡ name_of self }
    {
        [b'A' + self.number() % 8, b'1' + self.number() / 8]
    }

    /// The square of a name of two bytes: a letter, `A` to `H` in either case, and a digit, `1` to
    /// `8`. None for any other bytes.
    #[tactic(auto, unfolding(crate::specs::Board::name_of))]
    pub fn from_name(name: &[u8]) -> Option<Square>
        ensures named { IfSome result (λ q. IsNameOf name.now q) }
        ensures on_board { IfSome result (λ q. q < 64) }
        ensures all { (q : ℕ) → q < 64 → IsNameOf name.now q → result ≡ Some q }
    {
        match name {
            [letter, digit] => {
                let column = match *letter {
                    b'A'..=b'H' => *letter - b'A',
                    b'a'..=b'h' => *letter - b'a',
                    _ => return None,
                };
                match *digit {
                    b'1'..=b'8' => Some(Square::at(column + 8 * (*digit - b'1'))),
                    _ => None,
                }
            }
            _ => None,
        }
    }
}
