//! A value that a thread is started to make, and what is promised of it. If no thread can be
//! started, the calling thread makes the value.
//!
//! ```rust
//! use started_threads::{Making, Started};
//!
//! let making = match thread::spawn_with(&rt, promise, move || count(text)) {
//!     Ok(handle) => Making::Pending(handle),
//!     Err(refused) => Making::Ready((refused.value)()),
//! };
//! let started = Started { promise, making };
//! let count = started.join(&rt);
//! ```
#![tactic(auto)]

mod started;

pub use started::{Making, Started};
