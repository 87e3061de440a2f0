//! The rules of Othello on a grid of 64 cells, and the value of a position by full minimax.
//!
//! ```rust
//! use othello_rules::{Cell, Grid, Scoring, Side, Square};
//!
//! let mut cells = [Cell::Black; 64];
//! cells[0] = Cell::Empty;
//! cells[1] = Cell::White;
//! let grid = Grid::new(cells, Side::Black);
//! assert!(rt; grid.is_legal(Square::at(0)));
//! assert_eq!(rt; grid.plain_value(Scoring::Winner), 64);
//! ```
#![tactic(auto)]

mod answer;
mod direction;
mod discs;
mod grid;
pub mod laws;
mod masks;
mod rule_fault;
mod scoring;
mod square;

pub use answer::{Answer, Best};
pub use discs::{Cell, Side};
pub use grid::Grid;
pub use masks::{has_square, squares_in};
pub use rule_fault::RuleFault;
pub use scoring::{GREATEST_SCORE, Scoring};
pub use square::Square;
