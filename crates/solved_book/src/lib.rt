//! Books of solved positions. A book is written as OBF text, with the canonical image of each
//! position once, in rising order. It is read again as claims, which a search uses as advice. The
//! header and the order are this project's own format.
//!
//! ```rust
//! use solved_book::{Book, Claims};
//!
//! let mut book = Book::new(alloc, solved.scoring());
//! book.add(&solved)?;
//! let mut text = Vec::new(alloc);
//! book.write(&mut text)?;
//! assert!(rt; Claims::read(alloc, &text)?.find(&solved.pos()).is_some());
//! ```
#![tactic(auto)]

mod book;
mod book_fault;
mod claims;
mod entries;
mod header;
mod images;
pub mod laws;
mod listing;
mod order;

pub use book::Book;
pub use book_fault::BookFault;
pub use claims::Claims;
pub use header::header_scoring;
