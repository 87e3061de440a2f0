//! What it means that a line agrees if it has to list every best move. The body of a law is
//! empty: its contract is the law.

ghost use Rattle.std.specs.Prelude.{◌≡◌, ◌<◌, ℕ, ℤ, List};
ghost use Rattle.othello_rules.specs.Masks.{in_mask};
ghost use Rattle.othello_rules.specs.declared.answer.Best.TheVariants.{Moves};
ghost use Rattle.obf_text.specs.Fields.{Field};
ghost use Rattle.suite_reports.specs.Check.{complete_check, lists_square};
ghost use Rattle.suite_reports.specs.declared.check.Check.TheVariants.{Agree};

/// If a line that has to list every best move agrees, the squares that it lists with the score
/// of its position are exactly those of the best moves.
pub fn complete_lists_are_exact()
    ensures { (fields : List Field) (score : ℤ) (mask q : ℕ) → q < 64
        → complete_check fields (record { score = score; best = Moves mask }) ≡ Agree
        → lists_square fields score q ≡ in_mask mask q }
{}
