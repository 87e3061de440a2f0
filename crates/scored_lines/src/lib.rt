//! What is printed for the lines of a list: each line again, with every move's exact score and
//! remarks on the moves that it lists.
#![tactic(auto)]

mod checks;
pub mod laws;
mod lines;
mod remarks;

pub use checks::{Wrong, wrong_in};
pub use lines::{LinesText, lines_text};
