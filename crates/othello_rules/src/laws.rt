//! Laws that follow from the definitions. Each function's body is empty: its contract is the law.

ghost use Rattle.std.specs.Prelude.{◌≡◌, ◌≢◌, ◌<◌, ◌≤◌, ◌≤ℤ◌, ℕ, [], ◌∷◌, Some, None};
ghost use Rattle.std.specs.Prelude.{neg_ℤ, length, map};
ghost use Rattle.std.specs.List.{Contains};
ghost use Rattle.std.specs.Int.{int_signum};
ghost use Rattle.othello_rules.specs.declared.direction.Direction.{Direction};
ghost use Rattle.othello_rules.specs.declared.scoring.Scoring.{Scoring};
ghost use Rattle.othello_rules.specs.declared.scoring.Scoring.TheVariants.{Sign};
ghost use Rattle.othello_rules.specs.Board.{directions, ray};
ghost use Rattle.othello_rules.specs.Neighbours.{neighbour};
ghost use Rattle.othello_rules.specs.Rules.{GridView, IsOver, moves, pass, play};
ghost use Rattle.othello_rules.specs.Scores.{final};
ghost use Rattle.othello_rules.specs.Value.{greatest, value, best_moves, answer};
ghost use Rattle.othello_rules.specs.Colours.{colour_swap};
ghost use Rattle.othello_rules.specs.Answer.{IsScore};

/// The ray from a square is empty if the square has no neighbour in the direction. Otherwise it
/// is the neighbour, followed by the neighbour's ray.
pub fn rays_go_step_by_step()
    ensures edge { (d : Direction) (q : ℕ) → Contains directions d → q < 64
        → neighbour d q ≡ None
        → ray d q ≡ [] }
    ensures onward { (d : Direction) (q next : ℕ) → Contains directions d → q < 64
        → neighbour d q ≡ Some next
        → ray d q ≡ next ∷ ray d next }
{}

/// The value is that of textbook minimax. If the game is over, it is the final score. If
/// only the mover has no move, it is minus the value after a pass. Otherwise it is the greatest of
/// minus the value after each move. The value of a position of at most 64 cells is from -64 to 64.
pub fn value_is_minimax()
    ensures over { (g : Scoring) (P : GridView) → IsOver P → value g P ≡ final g P }
    ensures passed { (g : Scoring) (P : GridView) → moves P ≡ [] → moves (pass P) ≢ []
        → value g P ≡ neg_ℤ (value g (pass P)) }
    ensures moved { (g : Scoring) (P : GridView) → moves P ≢ []
        → value g P ≡ greatest (map (λ q. neg_ℤ (value g (play P q))) (moves P)) }
    ensures at_least { (g : Scoring) (P : GridView) (q : ℕ) → Contains (moves P) q
        → neg_ℤ (value g (play P q)) ≤ℤ value g P }
    ensures attained { (g : Scoring) (P : GridView) → moves P ≢ []
        → (q : ℕ) × Contains (moves P) q × (neg_ℤ (value g (play P q)) ≡ value g P) }
    ensures in_range { (g : Scoring) (P : GridView) → length P.cells ≤ 64 → IsScore (value g P) }
{}

/// The position with every disc of the other colour, and with the other side to move, has the same
/// moves, the same value and the same answer.
pub fn colours_are_alike()
    ensures moves { (P : GridView) → moves (colour_swap P) ≡ moves P }
    ensures value { (g : Scoring) (P : GridView) → value g (colour_swap P) ≡ value g P }
    ensures answer { (g : Scoring) (P : GridView) → answer g (colour_swap P) ≡ answer g P }
{}

/// The sign of a value is the value under `Scoring::Sign`, and a best move under any scoring is a
/// best move under `Scoring::Sign`.
pub fn scorings_agree()
    ensures value { (g : Scoring) (P : GridView) → int_signum (value g P) ≡ value Sign P }
    ensures best { (g : Scoring) (P : GridView) (q : ℕ) → Contains (best_moves g P) q
        → Contains (best_moves Sign P) q }
{}
