//! Directions, by their steps in the column and in the row.

ghost use Rattle.std.specs.Prelude.{◌≡◌, ◌<◌, ◌≤◌};
ghost use Rattle.othello_rules.specs.Board.{place_after, steps_along};

// One step along the columns or along the rows.
#[derive(Clone, Copy)]
pub(crate) enum Step {
    Back,
    Stay,
    Ahead,
}

impl Step {
    // How many steps a ray may make before the edge from the column or row `at`, which is from 0 to
    // 7. `Stay` meets no edge: 7.
    pub(crate) fn steps_along(self, at: u8) -> u8
        requires { at < 8 }
        ensures value { result ≡ steps_along self at }
        ensures below { result < 8 }
    {
        match self {
            Step::Back => at,
            Step::Stay => 7,
            Step::Ahead => 7 - at,
        }
    }

    // The column, or the row, `by` steps from `at`.
    pub(crate) fn advance(self, at: u8, by: u8) -> u8
        requires on_board { at < 8 }
        requires few { by ≤ steps_along self at }
        ensures value { result ≡ place_after self at by }
        ensures below { result < 8 }
    {
        match self {
            Step::Back => at - by,
            Step::Stay => at,
            Step::Ahead => at + by,
        }
    }
}

// One of the eight directions, by its step in the column and in the row.
#[derive(Clone, Copy)]
pub(crate) struct Direction {
    pub(crate) column: Step,
    pub(crate) row: Step,
}

// The eight directions: north, north-east, east, and so on clockwise.
pub(crate) const DIRECTIONS: [Direction; 8] = [
    Direction {
        column: Step::Stay,
        row: Step::Back,
    },
    Direction {
        column: Step::Ahead,
        row: Step::Back,
    },
    Direction {
        column: Step::Ahead,
        row: Step::Stay,
    },
    Direction {
        column: Step::Ahead,
        row: Step::Ahead,
    },
    Direction {
        column: Step::Stay,
        row: Step::Ahead,
    },
    Direction {
        column: Step::Back,
        row: Step::Ahead,
    },
    Direction {
        column: Step::Back,
        row: Step::Stay,
    },
    Direction {
        column: Step::Back,
        row: Step::Back,
    },
];
