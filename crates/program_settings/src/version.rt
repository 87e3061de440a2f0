//! The version of the programs and of the library.

/// The version, as `--version` prints it.
pub const VERSION: &str = "1.2.0";
/// The version as a number: 10000 times its first part, plus 100 times the second, plus the third.
pub const VERSION_NUMBER: u32 = 10_200;
