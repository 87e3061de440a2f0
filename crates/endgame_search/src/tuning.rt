//! The numbers that steer the search and how threads share it, each with what it costs to move it.
//! They decide how long a search takes, and no answer. `bench/peer.rs` has the same ones.

// Few empty squares

// The most empty squares of a position whose moves are tried in the order of their squares. With 5,
// 1.09 to 1.15 times as many positions are searched; with fewer, lists take more time than their
// order saves.
pub(crate) const MOST_EMPTIES_IN_ORDER: u8 = 4;

// The most empty squares of a position that `shallow` searches. The compiler makes a list of 7
// children in place, and one of 8 by a function call; with fewer, more lists are sorted, which takes
// longer than to pick from them.
pub(crate) const MOST_SHALLOW_EMPTIES: u8 = 7;

// The fewest empty squares of a position that is stored. With 8 or 9 fewer positions are searched,
// in no less time, since to find one in the table takes as long as to search it again. With 11 or
// 12, up to 1.17 times as many are searched.
pub(crate) const FEWEST_STORED: u8 = 10;

// The fewest empty squares of a position whose children are probed before one of them is searched.
// With 11 a search takes 5 % longer: to find the children in a large table takes more time than the
// cutoffs save. Above it cutoffs are lost.
pub(crate) const FEWEST_PROBED_AHEAD: u8 = 13;

// The least bound for which stable discs are counted. From 8 on at most 2 % fewer positions are
// probed, in the same time; above 20 cutoffs are lost.
pub(crate) const LEAST_COUNTED_BOUND: i8 = 20;

// The order by mobility

// What a move counts in the mobility of a side, and one on a corner, which can't be turned again,
// or on an X-square, which gives the corner away. They were chosen by the number of positions
// searched in the FFO endgame test, where a corner that counts 3 to 5 makes no difference.
pub(crate) const MOVE_COUNTS: u16 = 2;

pub(crate) const CORNER_COUNTS: u16 = 4;

pub(crate) const X_SQUARE_COUNTS: u16 = 1;

// How early a move on a square is searched among moves that leave the same mobility: corners, then
// C1, C3, D1, D3 and D4, D2, C2 with their images, then C-squares, and X-squares last. It is the
// order of J.-C. Weill's endgame search and of Zebra's; others were not measured.
pub(crate) const SQUARE_ORDER: [u8; 64] = [
    0, 7, 1, 3, 3, 1, 7, 0, //
    7, 8, 6, 5, 5, 6, 8, 7, //
    1, 6, 2, 4, 4, 2, 6, 1, //
    3, 5, 4, 4, 4, 4, 5, 3, //
    3, 5, 4, 4, 4, 4, 5, 3, //
    1, 6, 2, 4, 4, 2, 6, 1, //
    7, 8, 6, 5, 5, 6, 8, 7, //
    0, 7, 1, 3, 3, 1, 7, 0, //
];

// The order by worth

// The fewest empty squares of a position whose children are sorted by what they are worth; with
// fewer than `FEWEST_SHARED_OUT` none are. With 13, 1.05 times as many positions are searched, in
// about the same time; with 11, 0.96, but to foresee takes more time than that saves.
pub(crate) const FEWEST_JUDGED: u8 = 12;

// How many plies are foreseen after a move, by the empty squares before it. Without plies 1.4 times
// as many positions are searched; more plies are no faster.
pub(crate) fn plies_ahead(empties: u8) -> u8 {
    match empties {
        0..=15 => 0,
        16..=17 => 1,
        18..=19 => 2,
        _ => 3,
    }
}

// From this many discs above the bound on, only the opponent's mobility orders children. With 0, 8
// or 16, up to 1.03 times as many positions are searched, in the same time.
pub(crate) const ENOUGH: i32 = 32;

// From this worth for the opponent on, in eighths of a disc, all children count alike. More would
// not fit the place in the order; less would make more bad moves alike.
pub(crate) const MOST_WORTH: i32 = 2000;

// What a point of the opponent's mobility counts beside the worth of a child, in eighths of a disc:
// a reply has two points. With 4 and 8, FFO 40 to 44 took 1.4 and 1.15 times as many positions;
// with 16, FFO 46 took more.
pub(crate) const MOBILITY: u16 = 12;

// The evaluation, in eighths of a disc. Who moves one of these numbers has to fit the weights again,
// by bench/weights.rs: ten minutes of a processor.

// A disc.
pub(crate) const DISC: i32 = 8;

// A move of the mover, and one of the opponent.
pub(crate) const OWN_MOVE: i16 = 18;

pub(crate) const THEIR_MOVE: i16 = 16;

// A corner: it is worth more while more squares are empty.
#[inline(always)]
pub(crate) fn corner_worth(empties: u8) -> u16 {
    17 * u16::from(empties) / 4 + 4
}

// The turn, to be the one to move: it is worth more while more squares are empty, too.
#[inline(always)]
pub(crate) fn turn_worth(empties: u8) -> i32 {
    9 * i32::from(empties) / 2 - 40
}

// The first guess

// The fewest empty squares of a position whose value is guessed before it is searched. With fewer, a
// guess takes time that a short search has to win back; that was not measured.
pub(crate) const FEWEST_GUESSED: u8 = 14;

// How many plies a guess looks ahead at most. 4 or 8 gain nothing.
pub(crate) const MOST_PLIES_OF_GUESS: u8 = 6;

// How many empty squares a guess leaves at least. With fewer, it looks further ahead, and takes
// longer; that was not measured.
pub(crate) const LEFT_BY_GUESS: u8 = 10;

// By how many discs a guess is nearer to 0 than the value that is foreseen. Windows beyond the value
// take longest: with 0, a position took 1.7 times as long. With 4, 6, 12 or 16, 1.0 to 1.2 times as
// many positions are probed.
pub(crate) const GUESS_LESS: u8 = 8;

// Threads that search one position

// The fewest empty squares of a task that threads solve together. One thread solves a task with
// fewer in less time than others take to join it; above it, threads wait while one is at work.
pub(crate) const FEWEST_SHARED_EMPTIES: u8 = 16;

// The fewest empty squares of a position whose children threads share out among them. With 14, four
// threads made 1.25 and 1.42 times as many evaluations as one on random positions of 20 and 18 empty
// squares, with 12 they made 1.18 and 1.27.
pub(crate) const FEWEST_SHARED_OUT: u8 = 12;

// How many children, the eldest ones, each thread searches in their order, by the empty squares of
// their parent. If none of them is worth more than the bound, all others most likely have to be
// searched ("young brothers wait": Feldmann, Mysliwietz, Monien and Vornberger, 1989). With more,
// threads search the same; with fewer, children that need not be searched. On FFO 40 to 42, 44 and
// 47, shared from 16 empty squares on, four threads stored and evaluated 1.35 and 1.59 times as much
// as one with three eldest children, 1.25 and 1.34 with two, 1.26 and 1.28 with one.
pub(crate) fn eldest_children(empties: u8) -> u8 {
    match empties {
        0..=15 => 1,
        16..=20 => 2,
        _ => 3,
    }
}

// The fewest plies that threads foresee together. With fewer, more notes take the place of others;
// with more, threads foresee the same. It was not measured.
pub(crate) const FEWEST_PLIES_TOGETHER: u8 = 2;
