//! Laws of printed lists. Each function's body is empty: its contract is the law.

ghost use Rattle.std.specs.Prelude.{◌≡◌, ◌≢◌, ℕ, List, [], ◌∷◌, ◌++◌, length, Contains, true, false};
ghost use Rattle.othello_rules.specs.declared.scoring.Scoring.{Scoring};
ghost use Rattle.othello_rules.specs.Rules.{GridView};
ghost use Rattle.obf_text.specs.Obf.{Holds, item_of};
ghost use Rattle.obf_text.specs.Written.{entry_text};
ghost use Rattle.obf_text.specs.Fields.{Field};
ghost use Rattle.obf_text.specs.declared.entries.ListedMove.TheVariants.{At};
ghost use Rattle.move_scores.specs.Scores.{score_fields};
ghost use Rattle.scored_lines.specs.Remarks.{IsLeftOut, left_out_remarks, left_out_text};

/// The line that is printed for a position says the position with every move's score, or with the
/// score of its pass or end, and nothing else. This holds whether or not remarks or a comment
/// follow the scores.
pub fn scores_are_read_again()
    ensures bare { (g : Scoring) (P : GridView) → length P.cells ≡ 64
        → item_of (entry_text P (score_fields g P))
        ≡ Holds (record { position = P; listed = score_fields g P }) }
    ensures commented { (g : Scoring) (P : GridView) (more : List ℕ) → length P.cells ≡ 64
        → item_of (entry_text P (score_fields g P) ++ 32 ∷ 37 ∷ more)
        ≡ Holds (record { position = P; listed = score_fields g P }) }
{}

/// If every best move is asked for and a line lists a move, exactly the best moves of its
/// position that it does not list get a remark that they are left out. On any other line none does.
pub fn left_out_moves_are_remarked()
    ensures all { (g : Scoring) (P : GridView) (listed : List Field) (q : ℕ) → listed ≢ []
        → IsLeftOut g P listed q
        → Contains (left_out_remarks true (score_fields g P) listed) (left_out_text (At q)) }
    ensures only { (g : Scoring) (P : GridView) (listed : List Field) (r : List ℕ)
        → Contains (left_out_remarks true (score_fields g P) listed) r
        → (q : ℕ) × IsLeftOut g P listed q × (r ≡ left_out_text (At q)) }
    ensures unlisted { (scores : List Field) → left_out_remarks true scores [] ≡ [] }
    ensures unasked { (scores : List Field) (listed : List Field)
        → left_out_remarks false scores listed ≡ [] }
{}
