//! The settings of a run.

ghost use Rattle.std.specs.Prelude.{◌≡◌, ◌≤◌, ◌↔◌, IsSome, IfSome, false};
ghost use Rattle.bound_table.specs.Limits.{most_entries};
ghost use Rattle.endgame_search.specs.Limits.{most_empties};
ghost use Rattle.program_settings.specs.Settings.{SettingsView, IsWithinLimits, criteria_of, defaults};

use crate::criteria::Criteria;
use crate::limits::{
    DEFAULT_EMPTIES, DEFAULT_ENTRIES, DEFAULT_WORKERS, MOST_EMPTIES, MOST_ENTRIES, MOST_WORKERS,
};
use othello_rules::Scoring;
use std::marker::Model;

/// The settings of a run: three numbers, none above its limit, the scoring, and whether a line that
/// lists any move must list all best ones.
#[derive(Clone, Copy, PartialEq, Eq, Debug)]
pub struct Settings {
    max_empties: u8,
    workers: u8,
    table: u32,
    scoring: Scoring,
    complete: bool,
}

impl Model for Settings {
    ghost use Rattle.program_settings.specs.Settings.{SettingsView, IsWithinLimits};

    ghost Value = { SettingsView };

    ghost view = { λ s. record {
      max_empties = s.max_empties;
      workers = s.workers;
      table = s.table;
      scoring = s.scoring;
      complete = s.complete;
    } };

    ghost invariant = { λ s. IsWithinLimits (record {
      max_empties = s.max_empties;
      workers = s.workers;
      table = s.table;
      scoring = s.scoring;
      complete = s.complete;
    }) };

    ghost inverse = { λ c. record {
      max_empties = c.max_empties;
      workers = c.workers;
      table = c.table;
      scoring = c.scoring;
      complete = c.complete;
    } };
}

impl Settings {
    /// Settings by which positions of at most `max_empties` empty squares are solved, over a table
    /// of `table` entries, on `workers` threads besides those that a program has in any case: one
    /// for each file in `ffosolve`, one in `ffoscores`. A line may leave out best moves. None if a
    /// number is above its limit: `MOST_EMPTIES`, `MOST_WORKERS` and `MOST_ENTRIES`.
    pub fn new(max_empties: u8, workers: u8, table: u32, scoring: Scoring) -> Option<Settings>
        ensures within { IsSome result ↔ IsWithinLimits (record {
          max_empties = max_empties;
          workers = workers;
          table = table;
          scoring = scoring;
          complete = false;
        }) }
        ensures value { IfSome result (λ s. s ≡ record {
          max_empties = max_empties;
          workers = workers;
          table = table;
          scoring = scoring;
          complete = false;
        }) }
    {
        if max_empties > MOST_EMPTIES || workers > MOST_WORKERS || table > MOST_ENTRIES {
            return None;
        }
        Some(Settings {
            max_empties,
            workers,
            table,
            scoring,
            complete: false,
        })
    }

    /// These settings, with or without the rule that a line with moves has to list every best one.
    pub fn with_complete(self, complete: bool) -> Settings
        ensures { result ≡ record self { complete = complete } }
    {
        Settings { complete, ..self }
    }

    /// The most empty squares of a position that is solved. A position with more is refused.
    pub fn max_empties(&self) -> u8
        ensures value { result ≡ self.now.max_empties }
        ensures within { result ≤ most_empties }
    {
        self.max_empties
    }

    /// The number of worker threads: in `ffosolve` besides one thread for each file, in `ffoscores`
    /// besides one.
    pub fn workers(&self) -> u8
        ensures { result ≡ self.now.workers }
    {
        self.workers
    }

    /// The number of entries of the table of bounds.
    pub fn table(&self) -> u32
        ensures value { result ≡ self.now.table }
        ensures within { result ≤ most_entries }
    {
        self.table
    }

    /// The scoring of all positions of the run.
    pub fn scoring(&self) -> Scoring
        ensures { result ≡ self.now.scoring }
    {
        self.scoring
    }

    /// The criteria by which the lines of the run are refused and checked.
    pub fn criteria(&self) -> Criteria
        ensures value { result ≡ criteria_of self.now }
        ensures within { result.limit ≤ most_empties }
    {
        Criteria {
            limit: self.max_empties,
            complete: self.complete,
        }
    }
}

impl Default for Settings {
    /// `DEFAULT_EMPTIES`, `DEFAULT_WORKERS`, `DEFAULT_ENTRIES`, and the scoring `Winner`. A line
    /// may leave out best moves.
    fn default() -> Settings
        ensures { result ≡ defaults }
    {
        Settings {
            max_empties: DEFAULT_EMPTIES,
            workers: DEFAULT_WORKERS,
            table: DEFAULT_ENTRIES,
            scoring: Scoring::Winner,
            complete: false,
        }
    }
}
