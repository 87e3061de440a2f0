//! Laws that follow from the definitions. Each function's body is empty: its contract is the law.

ghost use Rattle.std.specs.Prelude.{◌≡◌, ◌≢◌, ◌≤ℤ◌, ◌≤◌, ◌<◌, ◌-◌, ◌^◌, ◌↔◌, ◌⊎◌, ℕ, [], ◌∷◌};
ghost use Rattle.std.specs.Prelude.{neg_ℤ, length, slice_index_or};
ghost use Rattle.std.specs.List.{Contains};
ghost use Rattle.othello_rules.specs.declared.discs.Side.{Side};
ghost use Rattle.othello_rules.specs.declared.discs.Side.TheVariants as side;
ghost use Rattle.othello_rules.specs.declared.discs.Cell.TheVariants.{Empty};
ghost use Rattle.othello_rules.specs.declared.scoring.Scoring.{Scoring};
ghost use Rattle.othello_rules.specs.Board.{square_at};
ghost use Rattle.othello_rules.specs.Masks.{in_mask};
ghost use Rattle.othello_rules.specs.Rules.{GridView, is_move, play};
ghost use Rattle.othello_rules.specs.Answer.{IsScore};
ghost use Rattle.othello_rules.specs.Value.{value, answer, best_moves};
ghost use Rattle.othello_bits.specs.Pos.{PosView, IsMove, HasNoMove, NeitherHasMove};
ghost use Rattle.othello_bits.specs.Pos.{position_of, discs_of, moves_of, play_of, pass_of};
ghost use Rattle.othello_bits.specs.Pos.{empties_of, final_of, value_of, answer_of, best_answer};
ghost use Rattle.othello_bits.specs.Symmetries.{target, inverse, symmetries, place};
ghost use Rattle.othello_bits.specs.Symmetries.{image, mask_image, best_image, image_of};
ghost use Rattle.othello_bits.specs.Symmetries.{pair_of, image_pair, first_symmetry};
ghost use Rattle.othello_bits.specs.Symmetries.{canonical, canonical_of};
ghost use Rattle.othello_bits.specs.declared.sym.Sym.{Sym};
ghost use Rattle.othello_bits.specs.declared.sym.Sym.TheVariants as sym;

/// The value of a position of two masks is that of textbook minimax, from -64 to 64. A move
/// fills one empty square, and a pass fills none.
pub fn value_is_minimax()
    ensures over { (g : Scoring) (p : PosView) → NeitherHasMove p → value_of g p ≡ final_of g p }
    ensures passed { (g : Scoring) (p : PosView) → HasNoMove p → moves_of (pass_of p) ≢ 0
        → value_of g p ≡ neg_ℤ (value_of g (pass_of p)) }
    ensures at_least { (g : Scoring) (p : PosView) (q : ℕ) → IsMove p q
        → neg_ℤ (value_of g (play_of p q)) ≤ℤ value_of g p }
    ensures attained { (g : Scoring) (p : PosView) → moves_of p ≢ 0
        → (q : ℕ) × IsMove p q × (neg_ℤ (value_of g (play_of p q)) ≡ value_of g p) }
    ensures in_range { (g : Scoring) (p : PosView) → IsScore (value_of g p) }
    ensures on_board { (p : PosView) (q : ℕ) → IsMove p q → q < 64 }
    ensures room { (p : PosView) (q : ℕ) → IsMove p q → 0 < empties_of p }
    ensures filled { (p : PosView) (q : ℕ) → IsMove p q
        → empties_of (play_of p q) ≡ empties_of p - 1 }
    ensures kept { (p : PosView) → empties_of (pass_of p) ≡ empties_of p }
{}

/// The value and the answer of two masks are the same with Black to move as with White to move.
pub fn colours_are_alike()
    ensures value { (g : Scoring) (s : Side) (p : PosView)
        → value g (position_of s p) ≡ value_of g p }
    ensures answer { (g : Scoring) (s : Side) (p : PosView)
        → answer g (position_of s p) ≡ answer_of g p }
{}

/// The answer is the value and what attains it: the mask of all best moves, a pass, or the end of
/// the game.
pub fn answer_is_gathered()
    ensures { (g : Scoring) (p : PosView)
        → answer_of g p ≡ record { score = value_of g p; best = best_answer g p } }
{}

/// The symmetries are listed in the order of their places. Identity keeps each square. FlipColumns
/// reverses the columns, FlipRows reverses the rows, and Transpose exchanges columns with rows. The
/// others are made of these.
pub fn symmetries_are_in_order()
    ensures order { symmetries ≡ sym.Identity ∷ sym.FlipColumns ∷ sym.FlipRows ∷ sym.HalfTurn
        ∷ sym.Transpose ∷ sym.TurnRight ∷ sym.TurnLeft ∷ sym.AntiTranspose ∷ [] }
    ensures places { (s : Sym) → slice_index_or symmetries (place s) sym.Identity ≡ s }
    ensures identity { (q : ℕ) → q < 64 → target sym.Identity q ≡ q }
    ensures columns { (c r : ℕ) → c < 8 → r < 8
        → target sym.FlipColumns (square_at c r) ≡ square_at (7 - c) r }
    ensures rows { (c r : ℕ) → c < 8 → r < 8
        → target sym.FlipRows (square_at c r) ≡ square_at c (7 - r) }
    ensures exchanged { (c r : ℕ) → c < 8 → r < 8
        → target sym.Transpose (square_at c r) ≡ square_at r c }
    ensures half { (q : ℕ) → q < 64
        → target sym.HalfTurn q ≡ target sym.FlipRows (target sym.FlipColumns q) }
    ensures right { (q : ℕ) → q < 64
        → target sym.TurnRight q ≡ target sym.FlipColumns (target sym.Transpose q) }
    ensures left { (q : ℕ) → q < 64
        → target sym.TurnLeft q ≡ target sym.FlipRows (target sym.Transpose q) }
    ensures anti { (q : ℕ) → q < 64
        → target sym.AntiTranspose q ≡ target sym.HalfTurn (target sym.Transpose q) }
{}

/// In the image of a position of 64 cells, the cell of a square stands where the symmetry sends
/// that square. The inverse leads back. One symmetry after another is one of the eight.
pub fn images_are_placed()
    ensures on_board { (s : Sym) (q : ℕ) → q < 64 → target s q < 64 }
    ensures back { (s : Sym) (q : ℕ) → q < 64 → target (inverse s) (target s q) ≡ q }
    ensures placed { (s : Sym) (P : GridView) (q : ℕ) → q < 64
        → slice_index_or (image s P).cells (target s q) Empty ≡ slice_index_or P.cells q Empty }
    ensures mask { (s : Sym) (m : ℕ) (q : ℕ) → q < 64
        → in_mask (mask_image s m) (target s q) ≡ in_mask m q }
    ensures whole { (s : Sym) (P : GridView) → length (image s P).cells ≡ 64 }
    ensures undone { (s : Sym) (P : GridView) → length P.cells ≡ 64
        → image (inverse s) (image s P) ≡ P }
    ensures composed { (s t : Sym)
        → (u : Sym) × ((P : GridView) → image s (image t P) ≡ image u P) }
{}

/// A symmetry keeps the rules and the value of a position of 64 cells, and sends its best moves to
/// those of the image.
pub fn images_are_alike()
    ensures moved { (s : Sym) (P : GridView) (q : ℕ) → length P.cells ≡ 64 → q < 64
        → is_move (image s P) (target s q) ≡ is_move P q }
    ensures played { (s : Sym) (P : GridView) (q : ℕ) → length P.cells ≡ 64 → q < 64
        → play (image s P) (target s q) ≡ image s (play P q) }
    ensures value { (g : Scoring) (s : Sym) (P : GridView) → length P.cells ≡ 64
        → value g (image s P) ≡ value g P }
    ensures best { (g : Scoring) (s : Sym) (P : GridView) (q : ℕ)
        → length P.cells ≡ 64 → q < 64
        → Contains (best_moves g (image s P)) (target s q) ↔ Contains (best_moves g P) q }
    ensures answer { (g : Scoring) (s : Sym) (P : GridView) → length P.cells ≡ 64
        → answer g (image s P)
        ≡ record { score = value g P; best = best_image s (answer g P).best } }
    ensures value_of { (g : Scoring) (s : Sym) (p : PosView)
        → value_of g (image_of s p) ≡ value_of g p }
    ensures answer_of { (g : Scoring) (s : Sym) (p : PosView)
        → answer_of g (image_of s p)
        ≡ record { score = value_of g p; best = best_image s (answer_of g p).best } }
{}

/// All images of a position of 64 cells have one canonical position: the image with the least pair
/// of masks, own compared first. `first_symmetry` leads to it, and no earlier symmetry does. It has
/// the value of the position, and its best moves are the images of the best moves.
pub fn canonical_is_one()
    ensures pairs { (p q : PosView) → p.opp < 2 ^ 64 → q.opp < 2 ^ 64
        → (pair_of p < pair_of q)
        ↔ ((p.own < q.own) ⊎ ((p.own ≡ q.own) × (p.opp < q.opp))) }
    ensures below { (P : GridView)
        → ((discs_of P).own < 2 ^ 64) × ((discs_of P).opp < 2 ^ 64) }
    ensures least { (P : GridView) (s : Sym)
        → pair_of (discs_of (canonical P)) ≤ image_pair P s }
    ensures first { (P : GridView) (s : Sym) → place s < place (first_symmetry P)
        → image s P ≢ canonical P }
    ensures one { (s : Sym) (P : GridView) → length P.cells ≡ 64
        → canonical (image s P) ≡ canonical P }
    ensures one_of { (s : Sym) (p : PosView) → canonical_of (image_of s p) ≡ canonical_of p }
    ensures value_of { (g : Scoring) (p : PosView) → value_of g (canonical_of p) ≡ value_of g p }
    ensures answer_of { (g : Scoring) (p : PosView)
        → let s = first_symmetry (position_of side.Black p) in
        answer_of g (canonical_of p)
        ≡ record { score = value_of g p; best = best_image s (answer_of g p).best } }
    ensures answer_back { (g : Scoring) (p : PosView)
        → let s = inverse (first_symmetry (position_of side.Black p)) in
        answer_of g p
        ≡ record {
          score = value_of g (canonical_of p);
          best = best_image s (answer_of g (canonical_of p)).best;
        } }
{}
