//! Images of a position: one place in a book, and one claim with its squares turned.

use super::{
    CORNER_LEFT_OVER, Discs, EQUAL_CORNERS, LAST_CORNER, UNEQUAL_CORNERS, is_added, pos_of,
    solved_of, task_of,
};
use bound_table::NoTable;
use endgame_search::{Claim, confirm};
use othello_bits::{Pos, Sym};
use othello_rules::{Answer, Best, Scoring, Side};
use solved_book::{Book, BookFault, Claims};
use std::alloc::Global;
use std::process::Abort;
use std::test::Fail;

const A1: u64 = 0x1;

const H1: u64 = 0x80;

const A8: u64 = 0x100_0000_0000_0000;

const H8: u64 = 0x8000_0000_0000_0000;

const G1: u64 = 0x40;

const B1: u64 = 0x2;

const A2: u64 = 0x100;

const H2: u64 = 0x8000;

const A7: u64 = 0x1_0000_0000_0000;

const H7: u64 = 0x80_0000_0000_0000;

const B8: u64 = 0x200_0000_0000_0000;

const G8: u64 = 0x4000_0000_0000_0000;

// A position where Black is to move, its value, and the masks of the best moves of its images: as it
// is, mirrored in the columns, in the rows, in both, and then its transposed one in the same order.
type Images = (Discs, i8, [u64; 8]);

const IMAGES: [Images; 4] = [
    (LAST_CORNER, 64, [A1, H1, A8, H8, A1, H1, A8, H8]),
    (CORNER_LEFT_OVER, 64, [B1, G1, B8, G8, A2, H2, A7, H7]),
    (
        EQUAL_CORNERS,
        64,
        [
            A1 | H1,
            A1 | H1,
            A8 | H8,
            A8 | H8,
            A1 | A8,
            H1 | H8,
            A1 | A8,
            H1 | H8,
        ],
    ),
    (UNEQUAL_CORNERS, 62, [H1, A1, H8, A8, A8, H8, A1, H1]),
];

// The book of these positions.
const BOOK: &[u8] = b"% ffobook 2 winner\n\
XXXXXXXXXXXXXXXXXXXXXXXXXXXXXXXXXXXXXXXXXXXXXXXXXXXXXXXXXOOOOO-- X; G8:+64;\n\
XXXXXXXXXXXXXXXXXXXXXXXXXXXXXXXXXXXXXXXXXXXXXXXXXXXXXXXXXOOOOOO- X; H8:+64;\n\
XXXXXXXXXXXXXXXXXXXXXXXXXXXXXXXXXXXXXXXXXXXXXXXXXXXXXXXX-OOXXOO- X; A8:+64; H8:+64;\n\
XXXXXXXXXXXXXXXXXXXXXXXXXXXXOXXXXXXXXXXXXXXXXXXXOXXXXXXX-XXXXXO- X; A8:+62;\n";

// The image where the colours are exchanged, and White is to move.
fn in_other_colours(position: Pos) -> Pos {
    Pos::of_grid(&position.to_grid(Side::White))
}

// Whether the first image is new in an empty book, and no other one, in both colours.
fn is_added_once(rt: &impl Abort, alloc: Global, discs: Discs) -> bool {
    let mut book = Book::new(alloc, Scoring::Winner);
    let mut added = 0u32;
    for sym in Sym::all() {
        let image = pos_of(rt, discs, Side::Black).image(sym);
        for position in [image, in_other_colours(image)] {
            let solved = solved_of(rt, position, book.scoring());
            if is_added(&mut book, &solved) {
                added = added.saturating_add(1);
            }
        }
    }
    added == 1 && book.len() == 1
}

#[test]
fn images_are_one_position(rt: HostRuntime) {
    for (discs, _, _) in IMAGES {
        assert!(rt; is_added_once(&rt, rt.alloc(), discs));
    }
}

#[test]
fn images_have_their_claims(rt: HostRuntime) -> Result<(), Fail> {
    let claims = Claims::read(rt.alloc(), BOOK)?;
    assert!(rt; claims.len() == 4);
    for (discs, score, masks) in IMAGES {
        let position = pos_of(&rt, discs, Side::Black);
        for (sym, mask) in Sym::all().into_iter().zip(masks) {
            let claim = Claim {
                score,
                best: Best::Moves(mask),
            };
            assert!(rt; claims.find(&position.image(sym)) == Some(claim));
        }
        assert!(rt; claims.find(&position.pass()).is_none());
    }
    Ok(())
}

// The bytes of the header of `BOOK`.
const HEADER_LEN: usize = 19;

// A claim or an answer: the score and the mask of the best moves.
type Scored = (i8, u64);

// How many bytes after the header a book keeps, how many positions it has then, one of them, what
// the book claims of it, and its answer.
const CUT: [(usize, usize, Discs, Scored, Scored); 2] = [
    (73, 1, CORNER_LEFT_OVER, (6, B1), (64, B1)),
    (233, 3, EQUAL_CORNERS, (64, A1), (64, A1 | H1)),
];

#[test]
fn a_book_can_be_read_in_parts(rt: HostRuntime) -> Result<(), Fail> {
    let (header, lines) = BOOK.split_at(HEADER_LEN);
    let claims = Claims::read(rt.alloc(), header)?.read_more(rt.alloc(), 2, lines)?;
    assert!(rt; claims.len() == 4);
    match claims.read_more(rt.alloc(), 6, lines) {
        Err(BookFault::Memory) => Err(Fail::from(BookFault::Memory)),
        again => {
            assert!(rt; matches!(again, Err(BookFault::Unsorted(6))));
            Ok(())
        }
    }
}

#[test]
fn a_book_that_was_cut_off_changes_no_answer(rt: HostRuntime) -> Result<(), Fail> {
    for (kept, len, discs, claimed, answered) in CUT {
        let claims = Claims::read(rt.alloc(), &BOOK[..HEADER_LEN + kept])?;
        let task = task_of(&rt, pos_of(&rt, discs, Side::Black), Scoring::Winner);
        let claim = claims.find(&task.pos()).expect(&rt, "a claim");
        let answer = confirm(&NoTable::new(task.scoring()), task, claim).answer();
        assert!(rt; claims.len() == len);
        assert!(rt;
            claim
                == Claim {
                    score: claimed.0,
                    best: Best::Moves(claimed.1)
                }
        );
        assert!(rt;
            answer
                == Answer {
                    score: answered.0,
                    best: Best::Moves(answered.1)
                }
        );
    }
    Ok(())
}
