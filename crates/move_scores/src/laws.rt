//! What holds of the scores of moves. Each function's body is empty: its contract is the law.

ghost use Rattle.std.specs.Prelude.{◌≡◌, ◌≢◌, ℕ, map, neg_ℤ, Contains};
ghost use Rattle.std.specs.List.Sorted.{IsPermutation};
ghost use Rattle.othello_rules.specs.declared.scoring.Scoring.{Scoring};
ghost use Rattle.othello_rules.specs.Rules.{GridView, moves};
ghost use Rattle.othello_bits.specs.Pos.{PosView, IsMove, moves_of, play_of, value_of};
ghost use Rattle.obf_text.specs.Fields.{greatest_listed};
ghost use Rattle.obf_text.specs.declared.entries.ListedMove.TheVariants.{At};
ghost use Rattle.move_scores.specs.Ranks.{AreRanked};
ghost use Rattle.move_scores.specs.Scores.{move_scores, score_fields_of, scored};

/// The scores of a position list every move once, with what it is worth to the mover, and nothing
/// else.
pub fn scores_are_of_moves()
    ensures { (g : Scoring) (P : GridView)
        → IsPermutation (map (scored g P) (moves P)) (move_scores g P) }
{}

/// The greatest score in the fields of a position is the value of the position.
pub fn greatest_is_value()
    ensures { (g : Scoring) (p : PosView) → greatest_listed (score_fields_of g p) ≡ value_of g p }
{}

/// A move is listed with the value of the position exactly if it is a best move.
pub fn best_are_first()
    ensures listed { (g : Scoring) (p : PosView) (q : ℕ) → IsMove p q
        → neg_ℤ (value_of g (play_of p q)) ≡ value_of g p
        → Contains (score_fields_of g p) (At q, value_of g p) }
    ensures only { (g : Scoring) (p : PosView) (q : ℕ) → moves_of p ≢ 0
        → Contains (score_fields_of g p) (At q, value_of g p)
        → IsMove p q × (neg_ℤ (value_of g (play_of p q)) ≡ value_of g p) }
{}

/// The scores are ranked: each move has a greater score than those after it, or an equal score and
/// an earlier square.
pub fn scores_are_ranked()
    ensures { (g : Scoring) (P : GridView) → AreRanked (move_scores g P) }
{}
