//! A position as two masks.

ghost use Rattle.std.specs.Prelude.{◌≡◌, ◌<◌, ◌≤◌, ◌↔◌, ◌||◌, ◌+◌, ◌*◌, ℕ, bit_and, true, count_ones};
ghost use Rattle.std.specs.Prelude.{◌≤ℤ◌, pos};
ghost use Rattle.std.specs.Prelude.{IsSome, IfSome, IsTrue};
ghost use Rattle.othello_rules.specs.declared.scoring.Scoring.{Scoring};
ghost use Rattle.othello_rules.specs.declared.discs.Side.{Side};
ghost use Rattle.othello_rules.specs.declared.discs.Side.TheVariants.{Black};
ghost use Rattle.othello_rules.specs.declared.discs.Cell.TheVariants as cell;
ghost use Rattle.othello_rules.specs.Rules as rules;
ghost use Rattle.othello_rules.specs.Scores.{final};
ghost use Rattle.othello_rules.specs.Answer.{IsScore};
ghost use Rattle.othello_rules.specs.Masks.{in_mask};
ghost use Rattle.othello_bits.specs.Pos.{IsMove, NeitherHasMove, mem, discs, position_of, discs_of};
ghost use Rattle.othello_bits.specs.Pos.{moves_of, flips_of, play_of, pass_of};
ghost use Rattle.othello_bits.specs.Pos.{empties_of, final_of, value_of, AreStable};
ghost use Rattle.othello_bits.specs.Symmetries.{image, image_of};
ghost use Rattle.othello_bits.specs.Symmetries.{first_symmetry, canonical, canonical_of};

use crate::canonical::Image;
use crate::cells::{cells_of_masks, mask_of_cell};
use crate::last_flip::count_flips;
use crate::sym::Sym;
use crate::{moves, stability};
use othello_rules::{Grid, Scoring, Side, Square};
use std::marker::Model;

/// A position as two masks: the discs of the side to move, the mover, and those of the opponent.
/// Bit n of a mask is square n: A1 is bit 0, H8 is bit 63. The masks share no bit. The colours are
/// not kept: the same masks serve with Black to move and with White to move.
#[derive(Clone, Copy, PartialEq, Eq, Debug)]
pub struct Pos {
    own: u64,
    opp: u64,
}

impl Model for Pos {
    ghost use Rattle.std.specs.Prelude.{◌≡◌, ◌<◌, ◌^◌, bit_and};
    ghost use Rattle.othello_bits.specs.Pos.{PosView};

    ghost Value = { PosView };

    ghost view = { λ p. record { own = p.own; opp = p.opp } };

    ghost invariant = { λ p. (bit_and p.own p.opp ≡ 0) × (p.own < 2 ^ 64) × (p.opp < 2 ^ 64) };

    ghost inverse = { λ d. record { own = d.own; opp = d.opp } };
}

impl Pos {
    /// The position with the mover's discs `own` and the opponent's discs `opp`: A1 is bit 0. None
    /// if the masks share a bit.
    pub fn new(own: u64, opp: u64) -> Option<Pos>
        ensures apart { IsSome result ↔ (bit_and own opp ≡ 0) }
        ensures value { IfSome result (λ p. p ≡ discs own opp) }
    {
        if own & opp == 0 {
            Some(Pos { own, opp })
        } else {
            None
        }
    }

    /// The position of a grid. The side to move is the mover.
    pub fn of_grid(grid: &Grid) -> Pos
        ensures meaning { position_of grid.now.mover result ≡ grid.now }
        ensures value { result ≡ discs_of grid.now }
    {
        let side = grid.side();
        Pos {
            own: mask_of_cell(grid, side.disc()),
            opp: mask_of_cell(grid, side.other().disc()),
        }
    }

    /// The grid of the position, where `side` is the mover.
    pub fn to_grid(self, side: Side) -> Grid
        ensures { result ≡ position_of side self }
    {
        Grid::new(cells_of_masks(self.own, self.opp, side), side)
    }

    /// The mask of the mover's discs: A1 is bit 0.
    #[inline(always)]
    pub fn own(self) -> u64
        ensures { result ≡ self.own }
    {
        self.own
    }

    /// The mask of the opponent's discs: A1 is bit 0.
    #[inline(always)]
    pub fn opp(self) -> u64
        ensures { result ≡ self.opp }
    {
        self.opp
    }

    /// The mask of the squares on which the mover may move: A1 is bit 0.
    #[inline(always)]
    pub fn moves(self) -> u64
        ensures squares { (s : Side) → (q : ℕ) → q < 64
            → in_mask result q ≡ rules.is_move (position_of s self) q }
        ensures value { result ≡ moves_of self }
    {
        moves::moves(self.own, self.opp)
    }

    /// The mask of the discs that a move on the square turns: A1 is bit 0. The mask is 0 if the
    /// square is occupied or no disc is turned.
    #[inline(always)]
    pub fn flips(self, square: Square) -> u64
        ensures squares { (s : Side) → (i : ℕ)
            → in_mask result i ≡ mem i (rules.flips (position_of s self) square) }
        ensures value { result ≡ flips_of self square }
        ensures occupied { (in_mask self.own square || in_mask self.opp square) ≡ true
            → result ≡ 0 }
    {
        moves::flips(self.own, self.opp, square.number())
    }

    /// The number of discs that a move on the square turns, if no other square is empty. It is 0
    /// if the square is occupied or no disc is turned.
    #[inline(always)]
    pub fn count_last_flips(self, square: Square) -> u32
        requires last { (q : ℕ) → rules.has (position_of Black self) cell.Empty q ≡ true
            → q ≡ square }
        ensures value { result ≡ count_ones (flips_of self square) }
        ensures few { result ≤ 64 }
    {
        count_flips(self.own, self.opp, square.number())
    }

    /// The position after a move on the square, with the opponent to move. None if the square is
    /// occupied or no disc is turned.
    #[inline(always)]
    pub fn play(self, square: Square) -> Option<Pos>
        ensures legal { (s : Side)
            → IsSome result ↔ IsTrue (rules.is_move (position_of s self) square) }
        ensures when { IsSome result ↔ IsMove self square }
        ensures meaning { IfSome result (λ p. (s : Side)
            → position_of (rules.other s) p ≡ rules.play (position_of s self) square) }
        ensures value { IfSome result (λ p. p ≡ play_of self square) }
    {
        let flips = self.flips(square);
        if flips == 0 {
            return None;
        }
        Some(self.after(square, flips))
    }

    /// The position after an allowed move on the square, with the opponent to move. `flips` is the
    /// mask of the discs that the move turns.
    #[inline(always)]
    pub fn after(self, square: Square, flips: u64) -> Pos
        requires legal { IsMove self square }
        requires turned { flips ≡ flips_of self square }
        ensures meaning { (s : Side)
            → position_of (rules.other s) result ≡ rules.play (position_of s self) square }
        ensures value { result ≡ play_of self square }
    {
        Pos {
            own: self.opp & !flips,
            opp: self.own | ((1u64 << square.number()) | flips),
        }
    }

    /// The position with the opponent to move and all discs as they are. Whether the rules allow
    /// the pass is not tested.
    #[inline(always)]
    pub fn pass(self) -> Pos
        ensures discs { result ≡ discs self.opp self.own }
        ensures meaning { (s : Side)
            → position_of (rules.other s) result ≡ rules.pass (position_of s self) }
        ensures value { result ≡ pass_of self }
    {
        Pos {
            own: self.opp,
            opp: self.own,
        }
    }

    /// The image of the position under a symmetry of the board. The side to move stays.
    pub fn image(self, sym: Sym) -> Pos
        ensures meaning { (s : Side) → position_of s result ≡ image sym (position_of s self) }
        ensures value { result ≡ image_of sym self }
    {
        Pos {
            own: sym.mask(self.own),
            opp: sym.mask(self.opp),
        }
    }

    /// The canonical position, and the first symmetry in the order of `Sym::all` that leads to it.
    /// The canonical position is the image with the least pair (own, opp), compared as numbers, own
    /// first.
    pub fn canonical(self) -> (Pos, Sym)
        ensures meaning { (s : Side) → position_of s result.0 ≡ canonical (position_of s self) }
        ensures symmetry { (s : Side) → result.1 ≡ first_symmetry (position_of s self) }
        ensures value { result.0 ≡ canonical_of self }
    {
        let least = Image::canonical(self.own, self.opp);
        let pos = Pos {
            own: least.own,
            opp: least.opp,
        };
        (pos, least.sym)
    }

    /// The canonical position: the image with the least pair (own, opp), compared as numbers, own
    /// first.
    #[inline]
    pub fn least_image(self) -> Pos
        ensures meaning { (s : Side) → position_of s result ≡ canonical (position_of s self) }
        ensures value { result ≡ canonical_of self }
    {
        self.canonical().0
    }

    /// Stable discs of the opponent, which no move can turn, now or later, as a mask: A1 is bit 0.
    /// Found are those whose four lines are each full, or end there, or have a disc beside them that
    /// was found before; others are left out. With n discs found the value under each scoring is at
    /// most 64 - 2n, or at most 1 if that is less.
    #[inline(always)]
    pub fn stable_opp(self) -> u64
        ensures stable { AreStable self result }
        ensures at_most { (g : Scoring) (z : ℕ) → 1 ≤ z → 64 ≤ z + 2 * count_ones result
            → value_of g self ≤ℤ pos z }
    {
        stability::stable_opp(self.own, self.opp)
    }

    /// The number of empty squares, from 0 to 64.
    #[inline(always)]
    pub fn empties(self) -> u8
        ensures squares { (s : Side) → result ≡ rules.count_of (position_of s self) cell.Empty }
        ensures value { result ≡ empties_of self }
        ensures at_most { result ≤ 64 }
    {
        (!(self.own | self.opp)).count_ones() as u8
    }

    /// Whether the game is over: neither side has a move.
    #[inline]
    pub fn is_over(self) -> bool
        ensures meaning { (s : Side) → IsTrue result ↔ rules.IsOver (position_of s self) }
        ensures value { IsTrue result ↔ NeitherHasMove self }
    {
        self.moves() == 0 && self.pass().moves() == 0
    }

    /// The score of the discs and empty squares as they stand, as the mover sees it: in discs from
    /// -64 to 64, or 1, 0 or -1 under `Sign`. Whether the game is over is not tested.
    pub fn final_score(self, scoring: Scoring) -> i8
        ensures meaning { (s : Side) → result ≡ final scoring (position_of s self) }
        ensures value { result ≡ final_of scoring self }
        ensures in_range { IsScore result }
    {
        let mine = self.own.count_ones() as u8;
        let theirs = self.opp.count_ones() as u8;
        scoring.score(mine, theirs, self.empties())
    }
}
