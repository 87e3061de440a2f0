//! The program `ffoscores`: its options, files and streams, on top of `list_printer`.
//!
//! ```rust
//! use ffoscores_program::list_program;
//!
//! let words = ["ffoscores", "--workers", "0"];
//! let status = list_program(&rt, alloc, &words, &mut input, &mut output, &mut errors);
//! ```
#![tactic(auto)]

mod exit_status;
mod ffoscores;
mod ffoscores_options;

pub use exit_status::{ExitStatus, list_program_of};
pub use ffoscores::list_program;
pub use ffoscores_options::{ListOptions, read_list_options};
