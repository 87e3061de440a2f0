//! Masks from the cells of a grid, and cells from masks.

ghost use Rattle.std.specs.Prelude.{◌≡◌, ◌<◌};
ghost use Rattle.othello_rules.specs.Rules as rules;
ghost use Rattle.othello_bits.specs.Pos.{discs, cell_at, cells_of, mask_where};

use othello_rules::{Cell, Grid, Side, Square};

// Whether `cell` is the cell of a square.
fn holds(grid: &Grid, cell: Cell, square: Square) -> bool
    ensures { result ≡ rules.has grid.now cell square }
{
    cell == grid.cell(square)
}

// The mask of the squares whose cell is `cell`.
pub fn mask_of_cell(grid: &Grid, cell: Cell) -> u64
    ensures { result ≡ mask_where (rules.has grid.now cell) }
{
    let mut mask = 0u64;
    for number in 0..64u8 {
        if holds(grid, cell, Square::at(number)) {
            mask |= 1u64 << number;
        }
    }
    mask
}

// The cell of a square, where `side` is the mover.
fn cell_on(own: u64, opp: u64, number: u8, side: Side) -> Cell
    requires { number < 64 }
    ensures { result ≡ cell_at side (discs own opp) number }
{
    if own & (1u64 << number) != 0 {
        side.disc()
    } else if opp & (1u64 << number) != 0 {
        side.other().disc()
    } else {
        Cell::Empty
    }
}

// The 64 cells of two masks, where `side` is the mover.
pub fn cells_of_masks(own: u64, opp: u64, side: Side) -> [Cell; 64]
    ensures { result ≡ cells_of side (discs own opp) }
{
    let mut cells = [Cell::Empty; 64];
    for number in 0..64u8 {
        cells[number as usize] = cell_on(own, opp, number, side);
    }
    cells
}
