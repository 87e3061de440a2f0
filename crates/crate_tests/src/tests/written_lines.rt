//! Written lines, and writers that fail.

use arrayvec::ArrayVec;
use obf_text::write_line;
use othello_rules::{Answer, Best, Cell, Grid, Side};
use std::io;

const TWO_EMPTY: &[u8; 64] = b"-OXXXXX-XXXXXXXOXXXXXXXXXXXXXXXXXXXOXXXXXXXXXXXXXXXXXXXXXXXXXXXX";

const A1_EMPTY: &[u8; 64] = b"-OOOOOOXXXXXXXXXXXXXXXXXXXXXXXXXXXXXXXXXXXXXXXXXXXXXXXXXXXXXXXXX";

const CORNERS_EMPTY: &[u8; 64] =
    b"-OOXXOO-XXXXXXXXXXXXXXXXXXXXXXXXXXXXXXXXXXXXXXXXXXXXXXXXXXXXXXXX";

const ALL_BLACK: &[u8; 64] = &[b'X'; 64];

fn cell_of(byte: u8) -> Cell {
    match byte {
        b'X' => Cell::Black,
        b'O' => Cell::White,
        _ => Cell::Empty,
    }
}

fn grid_of(board: &[u8; 64], side: Side) -> Grid {
    Grid::new(board.map(cell_of), side)
}

// A board and the rest of its line.
fn join(board: &[u8], rest: &[u8]) -> ArrayVec<u8, 160> {
    let mut line = ArrayVec::new();
    let _ = line.try_extend_from_slice(board);
    let _ = line.try_extend_from_slice(rest);
    line
}

// Whether the line is whole in this much room, or the fault is the writer's if there is less.
fn is_written_in(room: usize, grid: &Grid, answer: &Answer, whole: &[u8]) -> bool {
    let mut bytes = [0; 160];
    let Some(mut left) = bytes.get_mut(..room) else {
        return false;
    };
    match write_line(&mut left, grid, answer) {
        Ok(()) => room >= whole.len() && bytes.starts_with(whole),
        Err(error) => room < whole.len() && error.kind() == io::ErrorKind::WriteZero,
    }
}

fn is_written(board: &[u8; 64], side: Side, answer: Answer, rest: &[u8]) -> bool {
    let grid = grid_of(board, side);
    let whole = join(board, rest);
    for room in 0..160 {
        if !is_written_in(room, &grid, &answer, &whole) {
            return false;
        }
    }
    true
}

const BOTH_CORNERS: Answer = Answer {
    score: 64,
    best: Best::Moves(0x81),
};

const ONE_CORNER: Answer = Answer {
    score: 62,
    best: Best::Moves(0x80),
};

const BOTH_WIN: Answer = Answer {
    score: 1,
    best: Best::Moves(0x81),
};

#[test]
fn writes_best_moves(rt: HostRuntime) {
    assert!(rt;
        is_written(
            CORNERS_EMPTY,
            Side::Black,
            BOTH_CORNERS,
            b" X; A1:+64; H1:+64;\n"
        ) && is_written(TWO_EMPTY, Side::Black, ONE_CORNER, b" X; H1:+62;\n")
            && is_written(TWO_EMPTY, Side::Black, BOTH_WIN, b" X; A1:+01; H1:+01;\n")
    );
}

const PASS: Answer = Answer {
    score: -64,
    best: Best::Pass,
};

const OVER: Answer = Answer {
    score: -64,
    best: Best::Over,
};

#[test]
fn writes_a_pass_and_the_end(rt: HostRuntime) {
    assert!(rt;
        is_written(A1_EMPTY, Side::White, PASS, b" O; PS:-64;\n")
            && is_written(ALL_BLACK, Side::White, OVER, b" O; --:-64;\n")
    );
}
