//! Laws of the grammar of lines and of written lines. Each function's body is empty: its contract
//! is the law.

ghost use Rattle.std.specs.Prelude.{◌≡◌, ◌≢◌, ◌≤ℤ◌, ◌↔◌, [], ◌∷◌, ◌++◌, ℕ, List, Some, None};
ghost use Rattle.std.specs.Prelude.{length};
ghost use Rattle.std.specs.List.{Contains, filter_map};
ghost use Rattle.othello_rules.specs.Rules.{GridView};
ghost use Rattle.othello_rules.specs.Answer.{IsScore, AnswerView};
ghost use Rattle.obf_text.specs.Fields.{Field, IsField, IsNoField, field_of, greatest_listed};
ghost use Rattle.obf_text.specs.LineText.{lines_of};
ghost use Rattle.obf_text.specs.Obf.{Entry, Holds, Meaning, Says, item_of};
ghost use Rattle.obf_text.specs.Pieces.{line_pieces};
ghost use Rattle.obf_text.specs.Written.{AreWritable, answer_entry, entry_text};
ghost use Rattle.obf_text.specs.Written.{line_text, line_with_end};

/// Each piece is exactly one field or no field, and `field_of` says which.
pub fn one_field()
    ensures only { (piece : List ℕ) (f g : Field) → IsField piece f → IsField piece g
        → f ≡ g }
    ensures found { (piece : List ℕ) (f : Field) → (field_of piece ≡ Some f) ↔ IsField piece f }
    ensures none { (piece : List ℕ) → (field_of piece ≡ None) ↔ IsNoField piece }
{}

/// The greatest listed score is the score of a listed move, and no listed move has a greater one.
pub fn greatest_is_listed()
    ensures listed { (fields : List Field) → fields ≢ []
        → (f : Field) × Contains fields f × (f.1 ≡ greatest_listed fields) }
    ensures none_greater { (fields : List Field) (f : Field) → Contains fields f
        → f.1 ≤ℤ greatest_listed fields }
{}

/// Each list of bytes has exactly one meaning as a line.
pub fn one_meaning()
    ensures says { (line : List ℕ) → Says line (item_of line) }
    ensures only { (line : List ℕ) (meaning : Meaning) → Says line meaning
        → meaning ≡ item_of line }
{}

/// A position is written with its answer as one line. That line says the position with the fields
/// of its answer, and nothing else.
pub fn written_is_read()
    ensures line { (P : GridView) (A : AnswerView) (rest : List ℕ) → IsScore A.score
        → lines_of (line_with_end P A ++ rest) ≡ line_text P A ∷ lines_of rest }
    ensures says { (P : GridView) (A : AnswerView) → length P.cells ≡ 64 → IsScore A.score
        → Says (line_text P A) (Holds (answer_entry P A)) }
    ensures item { (P : GridView) (A : AnswerView) → length P.cells ≡ 64 → IsScore A.score
        → item_of (line_text P A) ≡ Holds (answer_entry P A) }
{}

/// The line that is written for a position with any fields is read back as the position with these
/// fields, whether or not a comment follows them.
pub fn entry_is_read()
    ensures bare { (P : GridView) (fields : List Field) → length P.cells ≡ 64 → AreWritable fields
        → item_of (entry_text P fields) ≡ Holds (record { position = P; listed = fields }) }
    ensures commented { (P : GridView) (fields : List Field) (more : List ℕ) → length P.cells ≡ 64
        → AreWritable fields → item_of (entry_text P fields ++ 32 ∷ 37 ∷ more)
        ≡ Holds (record { position = P; listed = fields }) }
{}

/// The pieces of a line that holds a position list its fields, in their order.
pub fn pieces_list_fields()
    ensures { (line : List ℕ) (entry : Entry) → item_of line ≡ Holds entry
        → entry.listed ≡ filter_map field_of (line_pieces line) }
{}
