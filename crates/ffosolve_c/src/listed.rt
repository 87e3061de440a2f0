//! The moves that a line lists, as C reads them.

ghost use Rattle.std.specs.Prelude.{◌≡◌, map};
ghost use Rattle.ffosolve_c.specs.Lines.{c_listed, written_over};

use obf_text::ListedMove;

/// A move that a line lists. `score` is as the side to move sees it, from -64 to 64; `kind` is 0 for
/// a move, 1 for a pass and 2 for the end of the game; `square` is the square's number, from 0 for
/// A1 to 63 for H8, and 64 with kinds 1 and 2.
#[repr(C)]
#[derive(Clone, Copy, PartialEq, Eq)]
pub struct FfosolveListed {
    pub score: i32,
    pub kind: i32,
    pub square: u8,
}

fn c_listed(listed: ListedMove, score: i8) -> FfosolveListed
    ensures { result ≡ c_listed (listed, score) }
{
    let score = i32::from(score);
    match listed {
        ListedMove::At(square) => FfosolveListed {
            score,
            kind: 0,
            square: square.number(),
        },
        ListedMove::Pass => FfosolveListed {
            score,
            kind: 1,
            square: 64,
        },
        ListedMove::Over => FfosolveListed {
            score,
            kind: 2,
            square: 64,
        },
    }
}

/// Writes the listed moves to `places` from the start, as many as fit.
pub fn fill_listed(listed: &[(ListedMove, i8)], places: &mut [FfosolveListed])
    ensures { places.new ≡ written_over places.old (map c_listed listed.now) }
{
    for i in 0..listed.len().min(places.len()) {
        let (listed, score) = listed[i];
        places[i] = c_listed(listed, score);
    }
}
