//! What is known about the values of positions: ranges that are true of them, and a transposition
//! table of such ranges, which threads share.
//!
//! A table never promises to show a range. Each range that it shows is true of the position asked
//! for.
//!
//! ```rust
//! use bound_table::{BoundTable, Bounds, Range};
//! use othello_bits::Pos;
//! use othello_rules::Scoring;
//!
//! // Black has H1 and seven full rows, White B1 to G1: Black moves to A1 and has all 64 discs.
//! let pos = Pos::new(!0x7f, 0x7e).expect(&rt, "no square is taken twice");
//! let table = BoundTable::new(rt.alloc(), 1024, Scoring::Winner)?;
//! table.store(&pos, Range::new(64, 64).unwrap());
//! assert!(rt; table.probe(&pos).is_none_or(|range| range.low() == 64));
//! ```
#![tactic(auto)]

mod advice;
mod begun;
mod bound_table;
mod bounds;
mod entry;
mod range;
mod table_fault;
mod tuning;
mod worths;

pub use advice::Advice;
pub use bound_table::BoundTable;
pub use bounds::{Bounds, NoTable};
pub use range::Range;
pub use table_fault::TableFault;
pub use worths::Foreseen;
