//! An entry of a shared table, in a slot that many threads may read or one may write.
//!
//! Each call loads the slot's word and tries once to get a turn. A turn to read ends with a leave,
//! and a turn to write with a put. If another thread was first, the turn is lost: its claim is
//! done, nothing is tried again, and no thread waits.

ghost use Rattle.std.specs.Prelude.{◌≡◌, ◌<◌, ◌+◌, ◌^◌, IfSome, IsTrue};
ghost use Rattle.std.specs.Option.{SomeIff};
ghost use Rattle.counted_slot.specs.Counting.{IsTurn};
ghost use Rattle.othello_bits.specs.Symmetries.{canonical_of};
ghost use Rattle.bound_table.specs.Table.{IsKnown};

use crate::range::Range;
use counted_slot::{Counted, FREE, Fits, MOST_READERS, ONE_READER, PRESENT, TAKEN};
use othello_bits::Pos;
use othello_rules::Scoring;

/// A canonical position and a range that is true of it: 24 bytes, to which a slot adds a word of 8.
#[derive(Clone, Copy)]
pub(crate) struct Entry {
    pub(crate) position: Pos,
    pub(crate) range: Range,
}

const _: () = prove!(size_of::<Entry>() == 24);

impl Fits for Entry {
    type Tag = Scoring;

    ghost fits = { λ scoring entry. IsKnown scoring entry.position entry.range };
}

impl Entry {
    /// The entry of a position and a range: it holds the canonical position.
    #[inline]
    pub(crate) fn of(position: &Pos, range: Range) -> Entry
        ensures position { result.position ≡ canonical_of position.now }
        ensures range { result.range ≡ range }
    {
        Entry {
            position: position.least_image(),
            range,
        }
    }

    /// The range of the entry. None if the entry holds another position.
    #[inline]
    pub(crate) fn range_of(self, position: Pos) -> Option<Range>
        ensures { SomeIff result (self.position ≡ position) self.range }
    {
        if self.position == position {
            Some(self.range)
        } else {
            None
        }
    }
}

/// A place for one entry, which contracts see as the scoring of its range. Its word is `FREE` until
/// the first store, then `PRESENT` with the number of its readers, or `TAKEN` while a thread writes
/// it.
pub(crate) type Slot = Counted<Entry>;

/// A slot that was never stored to. Its range, of all scores, is true of every position.
#[inline]
pub(crate) fn empty_slot(scoring: Scoring) -> Slot
    ensures { result ≡ scoring }
{
    let no_discs = Pos::new(0, 0).unwrap();
    let entry = Entry::of(&no_discs, Range::of_all_scores());
    Counted::new(entry, &scoring)
}

// Whether a slot with this word admits one more reader.
#[inline]
fn admits_reader(word: u64) -> bool
    ensures turn { IsTrue result → IsTurn word (word + ONE_READER) }
    ensures room { IsTrue result → word + ONE_READER < 2 ^ 64 }
{
    word % ONE_READER == PRESENT && word / ONE_READER < MOST_READERS
}

/// The entry of the slot; None if it was never stored to, a thread writes it, or
/// the turn is lost.
#[inline]
pub(crate) fn read(slot: &Slot) -> Option<Entry>
    ensures { IfSome result (λ entry. IsKnown slot.now entry.position entry.range) }
{
    let word = slot.load();
    if !admits_reader(word) {
        return None;
    }
    let (found, claim) = slot.turn(word, word + ONE_READER);
    if found != word {
        claim.done();
        return None;
    }
    let entry = *claim.get();
    claim.leave();
    Some(entry)
}

/// Puts an entry into the slot; does nothing if a thread reads or writes it, or the turn
/// is lost.
#[inline]
pub(crate) fn write(slot: &Slot, entry: Entry)
    requires { IsKnown slot.now entry.position entry.range }
{
    let word = slot.load();
    if word != FREE && word != PRESENT {
        return;
    }
    let (found, claim) = slot.turn(word, TAKEN);
    if found == word {
        claim.put(entry, PRESENT);
    } else {
        claim.done();
    }
}
