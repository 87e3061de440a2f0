//! What threads foresee that positions are worth.

ghost use Rattle.std.specs.Prelude.{◌≡◌, IsOk};

use std::alloc::{AllocError, Global};
use std::sync::atomic::{AtomicU64, Ordering};

/// What is noted of a position's worth in one respect.
#[derive(Clone, Copy, PartialEq, Eq, Debug)]
pub enum Foreseen {
    /// The table keeps no notes.
    Unkept,
    /// Nothing, or no longer.
    Unknown,
    /// A thread has begun to look.
    Begun,
    /// What a thread has found.
    Worth(u16),
}

/// Notes of what threads foresee that positions are worth. Each has one place, which depends on its
/// hash, and may take the place of another one: the notes are advice. No call waits.
#[derive(Drop)]
pub(crate) struct Worths {
    // The upper 48 bits are those of a hash. The others are 0 if a thread has begun to look, or one
    // more than the worth. 0 at a place without a note.
    notes: Vec<AtomicU64>,
}

// The upper 48 bits.
const HASH_BITS: u64 = 0xffff_ffff_ffff_0000;

impl Worths {
    /// Notes with this number of places, all without a note. Without places all calls do nothing.
    /// `Err` if memory is refused.
    pub(crate) fn new(alloc: Global, places: usize) -> Result<Worths, AllocError>
        ensures without_memory { places ≡ 0 → IsOk result }
    {
        let mut notes = Vec::with_capacity(alloc, places)?;
        for _ in 0..places {
            notes.push_reserved(AtomicU64::new(0));
        }
        Ok(Worths { notes })
    }

    // The place of a hash. None if there are no places.
    #[inline]
    fn place(&self, hash: u64) -> Option<&AtomicU64> {
        let index = (hash >> 32).checked_rem(self.notes.len() as u64)?;
        self.notes.get(index as usize)
    }

    /// What is noted under a hash.
    #[inline]
    pub(crate) fn find(&self, hash: u64) -> Foreseen {
        let Some(place) = self.place(hash) else {
            return Foreseen::Unkept;
        };
        let note = place.load(Ordering::SeqCst);
        if note & HASH_BITS != hash & HASH_BITS {
            return Foreseen::Unknown;
        }
        match ((note & 0xffff) as u16).checked_sub(1) {
            None => Foreseen::Begun,
            Some(worth) => Foreseen::Worth(worth),
        }
    }

    /// Notes something under a hash.
    #[inline]
    pub(crate) fn keep(&self, hash: u64, foreseen: Foreseen) {
        let Some(place) = self.place(hash) else {
            return;
        };
        let low = match foreseen {
            Foreseen::Unkept | Foreseen::Unknown => return,
            Foreseen::Begun => 0,
            Foreseen::Worth(worth) => worth.saturating_add(1),
        };
        place.store(hash & HASH_BITS | u64::from(low), Ordering::SeqCst);
    }
}
