//! The numbers that steer what a table keeps and how threads share it, each with what it costs to
//! move it. They decide how long a search takes, and no range that is shown.

ghost use Rattle.std.specs.Prelude.{◌<◌};

// The fewest entries of a table over which threads share a position. With fewer, the table forgets
// much of what they find: over 16 entries four threads took three times the time of one in sum. With
// more, small tables would be left to one thread.
pub(crate) const FEWEST_SHARED_ENTRIES: usize = 4096;

// The most places for positions that threads are searching, 8 bytes each. Each position has the
// place of its hash, so no number is enough for any number of threads; a thread notes fewer than 64
// positions at once. With fewer places, threads more often search what another one is searching.
pub(crate) const MOST_BEGUN: usize = 4096;

// The most places for what threads foresee, 8 bytes each. With 4,096, four threads evaluate 3 to 6 %
// more.
pub(crate) const MOST_WORTHS: usize = 16_384;

// The quarter of the table that holds positions with this number of empty squares. A store replaces
// what its entry holds, and most stores are of positions with few empty squares. In a quarter of
// their own they can't replace the positions that took longest to search. In one part for all, FFO
// 43 and 46 took 1.8 times as many positions; other borders, and five or six parts, were no better.
#[inline]
pub(crate) fn quarter_of(empties: u8) -> u64
    ensures { result < 4 }
{
    match empties {
        0..=12 => 0,
        13..=15 => 1,
        16..=18 => 2,
        _ => 3,
    }
}
