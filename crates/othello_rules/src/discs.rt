//! Sides, and what stands on a square.

ghost use Rattle.std.specs.Prelude.{◌≡◌};
ghost use Rattle.othello_rules.specs.Rules.{other, disc, same_cell};

/// A side, by the colour of its discs.
#[derive(Clone, Copy, PartialEq, Eq, Debug)]
pub enum Side {
    Black,
    White,
}

/// What stands on a square: nothing, or a disc.
#[derive(Clone, Copy, PartialEq, Eq, Debug)]
pub enum Cell {
    Empty,
    Black,
    White,
}

impl Side {
    /// The opponent of this side.
    pub fn other(self) -> Side
        ensures { result ≡ other self }
    {
        match self {
            Side::Black => Side::White,
            Side::White => Side::Black,
        }
    }

    /// The cell that holds a disc of this side.
    pub fn disc(self) -> Cell
        ensures { result ≡ disc self }
    {
        match self {
            Side::Black => Cell::Black,
            Side::White => Cell::White,
        }
    }
}

impl Cell {
    // Whether two cells are equal.
    pub(crate) fn is(self, cell: Cell) -> bool
        ensures { result ≡ same_cell self cell }
    {
        self == cell
    }
}
