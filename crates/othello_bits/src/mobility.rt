//! Runs of discs in one direction, from all squares at once, by shifts of masks.

ghost use Rattle.std.specs.Prelude.{◌≡◌, ℕ, ◌<◌, ◌&&◌, ◌||◌, false, true, bit_and};
ghost use Rattle.othello_rules.specs.Rules.{turned_on, is_nonempty};
ghost use Rattle.othello_rules.specs.Stable.{IsSafe};
ghost use Rattle.othello_rules.specs.Masks.{in_mask};
ghost use Rattle.othello_bits.specs.Shifts.{back, can, chain, inside, line, opposite};

/// One of the eight directions. North leads to row 1, and west to column A.
#[derive(Clone, Copy, PartialEq, Eq)]
pub enum Direction {
    North,
    NorthEast,
    East,
    SouthEast,
    South,
    SouthWest,
    West,
    NorthWest,
}

impl Direction {
    // The mask moved by one step. A square that a step takes over the edge at column A or H comes
    // out at the other edge, a row off, if the board has that row.
    #[inline(always)]
    fn shifted(self, mask: u64) -> u64
        ensures { (i : ℕ) → in_mask result i ≡ (can self i && in_mask mask (back self i)) }
    {
        match self {
            Direction::North => mask >> 8,
            Direction::NorthEast => mask >> 7,
            Direction::East => mask << 1,
            Direction::SouthEast => mask << 9,
            Direction::South => mask << 8,
            Direction::SouthWest => mask << 7,
            Direction::West => mask >> 1,
            Direction::NorthWest => mask >> 9,
        }
    }

    // The discs at which a run in this direction can go on. Those in columns A and H are left out,
    // unless the direction is north or south.
    #[inline(always)]
    fn inner(self, discs: u64) -> u64
        ensures { (i : ℕ) → in_mask result i ≡ (in_mask discs i && inside self i) }
    {
        match self {
            Direction::North | Direction::South => discs,
            _ => discs & 0x7e7e_7e7e_7e7e_7e7e,
        }
    }

    // The runs of at most six squares of `within` that begin next to `from`. `one`, `two` and
    // `four` are those of at most that many squares.
    #[inline(always)]
    fn fill(self, from: u64, within: u64) -> u64
        ensures { (i : ℕ) → in_mask result i
            ≡ chain 6 (can self) (back self) (in_mask from) (in_mask within) i }
    {
        let one = within & self.shifted(from);
        let two = one | within & self.shifted(one);
        let pairs = within & self.shifted(within);
        let four = two | pairs & self.shifted(self.shifted(two));
        four | pairs & self.shifted(self.shifted(four))
    }

    #[inline(always)]
    fn opposite(self) -> Direction
        ensures { result ≡ opposite self }
    {
        match self {
            Direction::North => Direction::South,
            Direction::NorthEast => Direction::SouthWest,
            Direction::East => Direction::West,
            Direction::SouthEast => Direction::NorthWest,
            Direction::South => Direction::North,
            Direction::SouthWest => Direction::NorthEast,
            Direction::West => Direction::East,
            Direction::NorthWest => Direction::SouthEast,
        }
    }

    // The mask of the squares from which a disc of the mover would turn others in this direction.
    // Occupied squares are not left out.
    #[inline(always)]
    pub fn reached(self, own: u64, opp: u64) -> u64
        requires { bit_and own opp ≡ 0 }
        ensures { (q : ℕ) → q < 64 → in_mask result q
            ≡ is_nonempty (turned_on (in_mask own) (in_mask opp) (line self q)) }
    {
        let back = self.opposite();
        back.shifted(back.fill(own, back.inner(opp)))
    }

    // The squares on which no disc can be turned along this line, in this direction and the opposite
    // one, whatever is beside it: the line ends there, or has no other free square.
    #[inline(always)]
    pub fn safe_alone(self, free: u64) -> u64
        ensures { (i : ℕ) → i < 64 → in_mask result i ≡ true
            → IsSafe (in_mask free) (λ q. false) (line self i) (line (opposite self) i) }
    {
        let back = self.opposite();
        let beside = self.shifted(free) | back.shifted(free);
        let taken = !free;
        let beyond = self.reached(free, taken) | back.reached(free, taken);
        let on_both_sides = self.shifted(!0) & back.shifted(!0);
        !self.inner(on_both_sides & (beside | beyond))
    }

    // The squares of `alone`, and those beside a square of `found` on this line. A shift over the edge
    // adds only squares where the line ends, which are safe alone.
    #[inline(always)]
    pub fn held(self, alone: u64, found: u64) -> u64
        ensures { (i : ℕ) → in_mask result i ≡ (in_mask alone i
            || ((can self i && in_mask found (back self i))
            || (can (opposite self) i && in_mask found (back (opposite self) i)))) }
    {
        alone | (self.shifted(found) | self.opposite().shifted(found))
    }
}
