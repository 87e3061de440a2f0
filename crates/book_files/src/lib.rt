//! Books as files, which `ffosolve` reads and writes, and the errors that end it early.
//!
//! ```rust
//! use book_files::{find_place, read_claims};
//!
//! let claims = read_claims(&rt, alloc, &book_in)?;
//! let place = find_place(&rt, alloc, "new.book", &book_in, &lists)?;
//! ```
#![tactic(auto)]

mod book_place;
mod books;
mod found;
mod new_file;
mod solve_error;

pub use book_place::{BookPlace, find_place};
pub use books::{read_claims, ready_book, write_book};
pub use found::Found;
pub use new_file::NewFile;
pub use solve_error::SolveError;
