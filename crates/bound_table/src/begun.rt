//! The positions that threads are searching.

ghost use Rattle.std.specs.Prelude.{◌≡◌, IsOk};

use std::alloc::{AllocError, Global};
use std::sync::atomic::{AtomicU64, Ordering};

/// The hashes of the positions that threads are searching. Each has one place, which depends on the
/// hash. A position may take the place of another one, and then both are forgotten as soon as one of
/// the two searches ends: the list is advice. No call waits.
#[derive(Drop)]
pub(crate) struct Begun {
    // 0 at a place where no position is noted.
    hashes: Vec<AtomicU64>,
}

impl Begun {
    /// A list with this number of places, at which no position is noted. Without places all calls do
    /// nothing. `Err` if memory is refused.
    pub(crate) fn new(alloc: Global, places: usize) -> Result<Begun, AllocError>
        ensures without_memory { places ≡ 0 → IsOk result }
    {
        let mut hashes = Vec::with_capacity(alloc, places)?;
        for _ in 0..places {
            hashes.push_reserved(AtomicU64::new(0));
        }
        Ok(Begun { hashes })
    }

    // The place of a hash. None if there are no places.
    #[inline]
    fn place(&self, hash: u64) -> Option<&AtomicU64> {
        let index = (hash >> 32).checked_rem(self.hashes.len() as u64)?;
        self.hashes.get(index as usize)
    }

    /// Notes a position that a thread begins to search.
    #[inline]
    pub(crate) fn begin(&self, hash: u64) {
        if let Some(place) = self.place(hash) {
            place.store(hash, Ordering::SeqCst);
        }
    }

    /// Forgets a position that a thread has searched.
    #[inline]
    pub(crate) fn end(&self, hash: u64) {
        if let Some(place) = self.place(hash) {
            place.store(0, Ordering::SeqCst);
        }
    }

    /// Whether a position is noted.
    #[inline]
    pub(crate) fn has(&self, hash: u64) -> bool {
        self.place(hash)
            .is_some_and(|place| place.load(Ordering::SeqCst) == hash)
    }
}
