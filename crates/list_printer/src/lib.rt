//! Lists of positions in OBF text, printed again with every move's exact score, and with remarks on
//! the moves that they list. The text of a line is that of `scored_lines`.
#![tactic(auto)]

mod chunk_threads;
mod chunks;
mod lists;

pub use lists::{ListFault, write_lists};
