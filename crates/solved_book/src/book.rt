//! Books of solved positions.

ghost use Rattle.std.specs.Prelude.{◌≡◌, ◌↔◌, ◌⊎◌, [], ◌∷◌, ◌++◌, length, Contains, IfOk, OnErr};
ghost use Rattle.std.specs.Prelude.{OnOk, IsTrue};
ghost use Rattle.std.specs.Io.KnownBytes.{Appends};
ghost use Rattle.othello_rules.specs.declared.discs.Side.TheVariants.{Black};
ghost use Rattle.othello_bits.specs.Pos.{PosView, answer_of, position_of};
ghost use Rattle.othello_bits.specs.Symmetries.{canonical_of, first_symmetry};
ghost use Rattle.solved_book.specs.Books.{book_text, book_line, header};
ghost use Rattle.solved_book.specs.Order.{position_at};
ghost use Rattle.solved_book.specs.Books.{IsSolvedEntry};
ghost use Rattle.solved_book.specs.Order.{AreBookPositions};

use crate::header::write_header;
use crate::images::best_on_image;
use crate::order::{Masks, masks_of};
use endgame_search::Solved;
use obf_text::write_line;
use othello_bits::{Pos, Sym};
use othello_rules::{Answer, Scoring, Side};
use std::alloc::{AllocError, Global};
use std::collections::BTreeMap;
use std::io;
use std::io::Write;
use std::marker::Model;

/// Solved positions with their answers under one scoring. Of the eight images of a position a book
/// holds the canonical one, once. Contracts see the scoring and the canonical positions, in rising
/// order. The answers in the book are those of the definitions.
#[derive(Debug, Drop)]
pub struct Book {
    scoring: Scoring,
    answers: BTreeMap<Masks, Answer>,
}

impl Model for Book {
    ghost use Rattle.solved_book.specs.Books.{BookView, IsBook};
    ghost use Rattle.solved_book.specs.Order.{positions_in};

    ghost Value = { BookView };

    ghost view = { λ b.
        record { scoring = b.scoring; positions = positions_in b.answers.entries } };

    ghost invariant = { λ b. IsBook b.scoring b.answers.entries };
}

// The answer of the canonical position of a solved one. `sym` leads to the canonical position.
fn canonical_answer(solved: Solved, sym: Sym) -> Answer
    requires { sym ≡ first_symmetry (position_of Black solved.position) }
    ensures { result ≡ answer_of solved.scoring (canonical_of solved.position) }
{
    let answer = solved.answer();
    Answer {
        score: answer.score,
        best: best_on_image(answer.best, sym),
    }
}

// Writes the line of a position of a book, with Black as the mover.
#[tactic(auto, unfolding(crate::specs::Books::book_line))]
fn write_book_line<W: Write>(
    writer: &mut W,
    scoring: Scoring,
    masks: Masks,
    answer: &Answer,
) -> io::Result<()>
    requires { IsSolvedEntry scoring (masks, answer.now) }
    ensures { OnOk result
        (Appends (W.contents writer.old) (W.contents writer.new)
        (book_line scoring (position_at masks))) }
{
    let (own, opp) = masks;
    let Some(position) = Pos::new(own, opp) else {
        unreachable!()
    };
    write_line(writer, &position.to_grid(Side::Black), answer)
}

impl Book {
    /// An empty book for answers under a scoring. It takes no memory yet.
    pub fn new(alloc: Global, scoring: Scoring) -> Book
        ensures { result ≡ record { scoring = scoring; positions = [] } }
    {
        Book {
            scoring,
            answers: BTreeMap::new(alloc),
        }
    }

    /// The scoring of the book's answers.
    pub fn scoring(&self) -> Scoring
        ensures { result ≡ self.now.scoring }
    {
        self.scoring
    }

    /// How many positions the book holds.
    pub fn len(&self) -> usize
        ensures count { result ≡ length self.now.positions }
        ensures positions { AreBookPositions self.now.positions }
    {
        self.answers.len()
    }

    /// Adds the canonical position of a solved position, with its answer. True if the book did
    /// not hold it before. `Err` if memory was refused: the book is as it was.
    pub fn add(&mut self, solved: &Solved) -> Result<bool, AllocError>
        requires { solved.now.scoring ≡ self.old.scoring }
        ensures new { IfOk result (λ added. IsTrue added
            ↔ (Contains self.old.positions (canonical_of solved.now.position) → ⊥)) }
        ensures holds { OnOk result ((p : PosView) → Contains self.new.positions p
            ↔ ((p ≡ canonical_of solved.now.position) ⊎ Contains self.old.positions p)) }
        ensures scoring { self.new.scoring ≡ self.old.scoring }
        ensures unchanged { OnErr result (self.new ≡ self.old) }
        // Only a new position takes memory.
        ensures err { OnErr result
            (Contains self.old.positions (canonical_of solved.now.position) → ⊥) }
    {
        let (position, sym) = solved.pos().canonical();
        let answer = canonical_answer(*solved, sym);
        let known = self.answers.insert(masks_of(position), answer)?;
        Ok(known.is_none())
    }

    /// Writes the header of the scoring, and then the line of each position, with Black as the
    /// mover, in rising order. It takes no memory of its own. After `Err` any part of the text may
    /// have been written.
    pub fn write<W: Write>(&self, writer: &mut W) -> io::Result<()>
        ensures text { OnOk result
            (Appends (W.contents writer.old) (W.contents writer.new)
            (book_text self.now.scoring self.now.positions)) }
        ensures positions { OnOk result (AreBookPositions self.now.positions) }
    {
        write_header(writer, self.scoring)?;
        for (masks, answer) in &self.answers {
            write_book_line(writer, self.scoring, *masks, answer)?;
        }
        Ok(())
    }
}
