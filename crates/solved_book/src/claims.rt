//! Claims of positions, read from the text of a book.

ghost use Rattle.std.specs.Prelude.{◌≡◌, ◌<◌, ◌^◌, None, length, map, option_map};
ghost use Rattle.obf_text.specs.LineText.{lines_of};
ghost use Rattle.solved_book.specs.Claims.{GivesAdvice, claims_of, claim_for, last_position};
ghost use Rattle.solved_book.specs.Claims.{more_claims, no_claims, scoring_of_lines};
ghost use Rattle.solved_book.specs.Order.{AreRising, position_at};
ghost use Rattle.solved_book.specs.Reading.{claimed_positions, position_claim};

use crate::book_fault::BookFault;
use crate::entries::claim_in_line;
use crate::header::read_first_line;
use crate::images::best_on_image;
use crate::order::{Masks, masks_of};
use endgame_search::Claim;
use obf_text::split_lines;
use othello_bits::Pos;
use othello_rules::Scoring;
use std::alloc::Global;
use std::collections::BTreeMap;
use std::marker::Model;

/// The claims of a book under its scoring: a score and the best moves for each of its positions. A
/// claim is advice for a search, and need not be true. Contracts see the scoring and the claimed
/// positions with their claims, in rising order.
#[derive(Drop)]
pub struct Claims {
    scoring: Scoring,
    claims: BTreeMap<Masks, Claim>,
}

impl Model for Claims {
    ghost use Rattle.std.specs.Prelude.{map};
    ghost use Rattle.solved_book.specs.Claims.{ClaimsView};
    ghost use Rattle.solved_book.specs.Order.{positions_in};
    ghost use Rattle.solved_book.specs.Order.{AreRising};
    ghost use Rattle.solved_book.specs.Reading.{position_claim};

    ghost Value = { ClaimsView };

    ghost view = { λ c.
        record { scoring = c.scoring; claims = map position_claim c.claims.entries } };

    ghost invariant = { λ c. AreRising (positions_in c.claims.entries) };
}

// The masks of the last position.
fn last_masks(claims: &BTreeMap<Masks, Claim>) -> Option<Masks>
    ensures { option_map position_at result
        ≡ last_position None (map position_claim claims.now.entries) }
{
    let (masks, _) = claims.last_key_value()?;
    Some(*masks)
}

impl Claims {
    /// An empty list of claims under a scoring. It takes no memory.
    pub fn new(alloc: Global, scoring: Scoring) -> Claims
        ensures { result ≡ no_claims scoring }
    {
        Claims {
            scoring,
            claims: BTreeMap::new(alloc),
        }
    }

    /// An empty list of claims under the scoring that the first line of a text names, as `read` finds
    /// it. None if the line is an unknown header.
    pub fn under_header(alloc: Global, text: &[u8]) -> Option<Claims>
        ensures { result ≡ option_map no_claims (scoring_of_lines (lines_of text.now)) }
    {
        Some(Claims::new(alloc, read_first_line(text)?))
    }

    /// Reads the text of a book.
    ///
    /// A header in the first line names the scoring. Without a header the scoring is `Winner`. A
    /// first line that begins with `% ffobook ` and is not a header has the fault `Header`.
    ///
    /// Each line that is not skipped has to be a line of OBF text with at least one listed move.
    /// Its position has to be canonical, with Black to move, and greater than the position before
    /// it. The claimed score is the greatest listed score. The claimed best moves are the squares
    /// that are listed with this score; if there is none, the claim is a pass if one is listed
    /// with this score, otherwise the end of the game.
    ///
    /// `Err` is the fault of the first faulty line; if this line has several, the first of them
    /// in the order of `BookFault`. It is `Memory` if memory is refused before a fault is found.
    pub fn read(alloc: Global, text: &[u8]) -> Result<Claims, BookFault>
        ensures { GivesAdvice result (claims_of text.now) }
    {
        match Claims::under_header(alloc, text) {
            Some(claims) => claims.read_more(alloc, 1, text),
            None => Err(BookFault::Header),
        }
    }

    /// Reads a further part of a book, which begins with line `number`. The part that these claims
    /// were read from has to end with a line feed. Returns the claims of both parts, or the fault
    /// of the first faulty line of the further part, as `read` does.
    pub fn read_more(self, alloc: Global, number: usize, text: &[u8]) -> Result<Claims, BookFault>
        requires { number < 2 ^ 63 }
        ensures { GivesAdvice result (more_claims self number text.now) }
    {
        let scoring = self.scoring;
        let mut claims = self.claims;
        let mut before = last_masks(&claims);
        let mut number = number;
        for line in split_lines(text) {
            if let Some((masks, claim)) = claim_in_line(alloc, number, before, line)? {
                claims.insert(masks, claim)?;
                before = Some(masks);
            }
            number += 1;
        }
        Ok(Claims { scoring, claims })
    }

    /// The scoring of the claims.
    pub fn scoring(&self) -> Scoring
        ensures { result ≡ self.now.scoring }
    {
        self.scoring
    }

    /// How many positions have a claim.
    pub fn len(&self) -> usize
        ensures count { result ≡ length self.now.claims }
        ensures rising { AreRising (claimed_positions self.now.claims) }
    {
        self.claims.len()
    }

    /// The claim of a position: the claim of its canonical position, with the best moves mapped
    /// back to the position. None if the canonical position has no claim.
    pub fn find(&self, position: &Pos) -> Option<Claim>
        ensures { result ≡ claim_for self.now position.now }
    {
        let (canonical, sym) = position.canonical();
        let mut claim = *self.claims.get(&masks_of(canonical))?;
        claim.best = best_on_image(claim.best, sym.inverse());
        Some(claim)
    }
}
