//! What the programs `ffosolve` and `ffoscores` share: words, arguments, files, streams, and the
//! errors that end either early.
//!
//! ```rust
//! use program_parts::{borrow_words, read_files};
//!
//! let words = borrow_words(alloc, &words)?;
//! let texts = read_files(&rt, alloc, &names, &mut input)?;
//! ```
#![tactic(auto)]

mod cause;
mod inputs;
pub mod laws;
mod option_fault;
mod program_error;
pub mod settings_args;
mod streams;
mod words;

pub use cause::{cause_text, print_cause};
pub use inputs::read_files;
pub use option_fault::OptionFault;
pub use program_error::{ProgramError, memory_or, read_error};
pub use streams::{ErrorStream, end_without_options};
pub use words::borrow_words;
