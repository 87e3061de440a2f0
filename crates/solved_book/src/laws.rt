//! What holds of books and of the claims that are read from them. Each function's body is empty:
//! its contract is the law.

ghost use Rattle.std.specs.Prelude.{◌≡◌, ◌↔◌, ℕ, ◌+◌, List, ◌∷◌, ◌++◌, length, Contains, map, Ok};
ghost use Rattle.std.specs.Prelude.{[], Err, Some, None};
ghost use Rattle.othello_rules.specs.declared.scoring.Scoring.{Scoring};
ghost use Rattle.othello_bits.specs.Pos.{PosView, answer_of};
ghost use Rattle.othello_bits.specs.Symmetries.{canonical_of, image_of};
ghost use Rattle.othello_bits.specs.declared.sym.Sym.{Sym};
ghost use Rattle.obf_text.specs.LineText.{lines_of};
ghost use Rattle.obf_text.specs.Obf.{item_of};
ghost use Rattle.solved_book.specs.declared.book_fault.BookFault.{BookFault};
ghost use Rattle.solved_book.specs.Claims.{ClaimsView, PositionClaim, answer_claim, claim_by};
ghost use Rattle.solved_book.specs.Claims.{claims_from, claims_of, entry_claim, claim_for};
ghost use Rattle.solved_book.specs.Claims.{last_position, claim_in_line, more_claims};
ghost use Rattle.solved_book.specs.Books.{book_text};
ghost use Rattle.solved_book.specs.Order.{AreRising, AreBookPositions};
ghost use Rattle.solved_book.specs.Texts.{IsBookText};

/// The text of a book, read again, claims the answers of its positions under its scoring, and
/// nothing else. So each image of a position of the book is found with its score and all its best
/// moves, and no other position is found.
pub fn book_is_read_again()
    ensures claims { (g : Scoring) (positions : List PosView) → AreBookPositions positions
        → claims_of (book_text g positions)
        ≡ Ok (record { scoring = g; claims = map (answer_claim g) positions }) }
    ensures found { (g : Scoring) (positions : List PosView) (a : ClaimsView) (p : PosView)
        (s : Sym)
        → AreBookPositions positions
        → claims_of (book_text g positions) ≡ Ok a
        → Contains positions (canonical_of p)
        → claim_for a (image_of s p) ≡ Some (claim_by (answer_of g (image_of s p))) }
    ensures missing { (g : Scoring) (positions : List PosView) (a : ClaimsView) (p : PosView)
        → AreBookPositions positions
        → claims_of (book_text g positions) ≡ Ok a
        → (Contains positions (canonical_of p) → ⊥)
        → claim_for a p ≡ None }
{}

/// A text is read as claims exactly if it is a book of them: its first line names their scoring;
/// each line is skipped, or holds an entry that lists a move, of a canonical position with Black to
/// move; the claims are those of the entries, in their order; and their positions rise. So each
/// claim is that of a line, and the claim of each line that holds an entry is among them.
pub fn claims_are_of_entries()
    ensures text { (text : List ℕ) (a : ClaimsView) → claims_of text ≡ Ok a ↔ IsBookText text a }
    ensures each { (text : List ℕ) (a : ClaimsView) (c : PositionClaim) → claims_of text ≡ Ok a
        → Contains a.claims c
        ↔ ((line : List ℕ) × Contains (lines_of text) line
        × (entry_claim (item_of line) ≡ Some c)) }
{}

/// The fault of the first faulty line is that of all lines, whatever follows it.
pub fn first_fault_decides()
    ensures { (front rest : List (List ℕ)) (line : List ℕ) (claims : List PositionClaim)
        → (f : BookFault)
        → claims_from 1 None front ≡ Ok claims
        → claim_in_line (1 + length front) (last_position None claims) (item_of line) ≡ Err f
        → claims_from 1 None (front ++ line ∷ rest) ≡ Err f }
{}

/// A text that is cut after a line feed can be read in two parts. The fault of the first part is
/// that of the text. If the first part has no fault, what `read_more` then returns for the second
/// part is what `read` returns for the text.
pub fn parts_are_read_as_one()
    ensures fault { (front rest : List ℕ) (f : BookFault)
        → claims_of (front ++ 10 ∷ []) ≡ Err f → claims_of (front ++ 10 ∷ rest) ≡ Err f }
    ensures claims { (front rest : List ℕ) (a : ClaimsView)
        → claims_of (front ++ 10 ∷ []) ≡ Ok a
        → claims_of (front ++ 10 ∷ rest)
        ≡ more_claims a (1 + length (lines_of (front ++ 10 ∷ []))) rest }
{}

/// Two rising lists of equal sets of positions are equal. So the scoring and the positions of a
/// book determine its text.
pub fn order_is_one()
    ensures { (xs ys : List PosView) → AreRising xs → AreRising ys
        → ((p : PosView) → Contains xs p ↔ Contains ys p)
        → xs ≡ ys }
{}
