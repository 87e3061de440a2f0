//! The tests of the crates' public calls, made as a caller makes them. They are in a crate of their
//! own, so that no crate is proved again with its tests.
#![tactic(auto)]

#[cfg(test)]
mod tests;
