//! Bytes that are written to a writer: all of them, or a prefix of them if it fails.
#![tactic(auto)]

mod writes;

pub use writes::send;
