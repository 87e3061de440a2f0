//! Every move of a position with its exact score.
//!
//! ```rust
//! use bound_table::NoTable;
//! use endgame_search::Task;
//! use move_scores::score_moves;
//! use othello_bits::Pos;
//! use othello_rules::Scoring;
//!
//! // Black has H1 and seven full rows, White B1 to G1: A1 is the only move and takes all 64 discs.
//! let pos = Pos::new(!0x7f, 0x7e).expect(&rt, "no square is taken twice");
//! let task = Task::new(pos, 20, Scoring::Winner).expect(&rt, "one empty square");
//! let scored = score_moves(&NoTable::new(task.scoring()), task);
//! assert!(rt; scored.fields().len() == 1);
//! ```
#![tactic(auto)]

pub mod laws;
mod scores;

pub use scores::{Scored, score_move, score_moves};
