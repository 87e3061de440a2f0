//! How a position is scored.

ghost use Rattle.std.specs.Prelude.{◌≡◌, ◌≤◌, ◌+◌, IfSome, Some, map, option_map};
ghost use Rattle.std.specs.List.{find};
ghost use Rattle.std.specs.Str.{bytes_eq};
ghost use Rattle.othello_rules.specs.Scores.{all_scorings, score_of, scoring_name, scoring_named};
ghost use Rattle.othello_rules.specs.Answer.{IsScore};
ghost use Rattle.othello_rules.specs.declared.scoring.Scoring.{Scoring};
ghost use Rattle.othello_rules.specs.declared.scoring.Scoring.TheVariants.{Winner};

use std::cmp::Ordering;

/// The greatest score of a position under any scoring, in discs. The least score is minus it.
pub const GREATEST_SCORE: i8 = 64;

/// What the score of a position counts, as the side to move sees it: discs, or under `Sign` the
/// outcome alone.
#[derive(Clone, Copy, PartialEq, Eq, Debug)]
pub enum Scoring {
    /// The disc difference, with all empty squares for the side that has more discs, or for neither
    /// in a draw: the practice of endgame solvers and of the published FFO results.
    Winner,
    /// The plain disc difference.
    Discs,
    /// 1, 0 or -1 if the mover has more discs, as many or fewer.
    Sign,
}

impl Scoring {
    /// All scorings, in the order of their numbers in C, from 0.
    pub const ALL: [Scoring; 3] = [Scoring::Winner, Scoring::Discs, Scoring::Sign];

    /// The name by which options and texts call the scoring: `winner`, `discs` or `sign`.
    pub fn name(self) -> &'static str
        ensures { result.now ≡ scoring_name self }
    {
        match self {
            Scoring::Winner => "winner",
            Scoring::Discs => "discs",
            Scoring::Sign => "sign",
        }
    }

    /// The names of all scorings, in the order of `ALL`.
    pub fn names() -> [&'static str; 3]
        ensures { map (λ name. name.now) result ≡ map scoring_name all_scorings }
    {
        Scoring::ALL.map(|scoring| scoring.name())
    }

    /// The scoring of a name: `winner`, `discs` or `sign`. None for any other bytes.
    pub fn from_name(name: &[u8]) -> Option<Scoring>
        ensures value { result ≡ scoring_named name.now }
        ensures named { IfSome result (λ scoring. name.now ≡ scoring_name scoring) }
        ensures all { (g : Scoring) → name.now ≡ scoring_name g → result ≡ Some g }
    {
        find_named(Scoring::ALL.as_slice(), name).copied()
    }

    /// The score of a position with `own` discs of the mover, `opposing` discs of the opponent and
    /// `empty` empty squares, 64 in all at most: in discs from -64 to 64, or 1, 0 or -1 under
    /// `Sign`.
    pub fn score(self, own: u8, opposing: u8, empty: u8) -> i8
        requires { own + opposing + empty ≤ 64 }
        ensures value { result ≡ score_of self own opposing empty }
        ensures in_range { IsScore result }
    {
        let difference = own as i8 - opposing as i8;
        match self {
            Scoring::Winner => winner_score(own, opposing, empty),
            Scoring::Discs => difference,
            Scoring::Sign => difference.signum(),
        }
    }
}

// The first of the scorings that has the name.
fn find_named<'a>(scorings: &'a [Scoring], name: &[u8]) -> Option<&'a Scoring>
    ensures { option_map (λ g. g.now) result
        ≡ find (λ g. bytes_eq (scoring_name g) name.now) scorings.now }
{
    scorings
        .iter()
        .find(|scoring| scoring.name().as_bytes() == name)
}

// The disc difference, with the empty squares for the side that has more discs.
fn winner_score(own: u8, opposing: u8, empty: u8) -> i8
    requires { own + opposing + empty ≤ 64 }
    ensures value { result ≡ score_of Winner own opposing empty }
    ensures in_range { IsScore result }
{
    let difference = own as i8 - opposing as i8;
    match own.cmp(&opposing) {
        Ordering::Greater => difference + empty as i8,
        Ordering::Less => difference - empty as i8,
        Ordering::Equal => difference,
    }
}
