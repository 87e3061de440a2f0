//! Lines of OBF text, a form in which the FFO endgame test is distributed: 64 squares, the side to
//! move, and fields that list moves with their scores. The letters, the spellings of a pass and of
//! a finished game, and the fields are this project's own profile.
//!
//! ```rust
//! use obf_text::{Item, greatest_score, read_line, split_lines};
//!
//! for bytes in split_lines(text) {
//!     if let Item::Entry(line) = read_line(alloc, bytes)? {
//!         assert!(rt; greatest_score(&line.listed) <= Some(64));
//!     }
//! }
//! ```
#![tactic(auto)]

mod bytes;
mod entries;
mod fields;
pub mod laws;
mod line_fault;
mod lines;
mod pieces;
mod reader;
mod writer;

pub use entries::{Item, Line, ListedMove, greatest_score};
pub use fields::{field_of, without_blanks, without_first_blanks};
pub use line_fault::{LineFault, ManyEmpties};
pub use lines::{Lines, line_len, split_lines};
pub use pieces::{Pieces, comment_of, line_pieces};
pub use reader::{fault_of_front, read_line};
pub use writer::{move_bytes, score_bytes, write_entry, write_line};
