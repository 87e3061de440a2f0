//! The limits as they are promised, from which tests make their rows. They are not the code's own
//! constants, which the rows test.

pub(super) const MOST_EMPTIES: u8 = 60;

pub(super) const MOST_ENTRIES: u32 = 4_194_304;

pub(super) const MOST_WORKERS: u8 = 64;

pub(super) const MOST_FILES: u32 = 64;

pub(super) const MOST_BYTES: u32 = 1_048_576;

pub(super) const MOST_SENDERS: u32 = 64;

pub(super) const MOST_JOBS: u32 = 65_535;
