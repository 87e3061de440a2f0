//! Which taken jobs threads can share.

ghost use Rattle.std.specs.Prelude.{◌≡◌, ◌<◌, [], find, nat_lt, IfSome};
ghost use Rattle.job_board.specs.SharedJobs.{ListsLast, without};

use crate::jobs::JobId;
use arrayvec::ArrayVec;
use endgame_search::Task;
use std::marker::Model;

// The most jobs that are listed: as many as 64 clients and 64 workers can take at once.
const MOST_SHARED: usize = 128;

/// The place of a job among all shared jobs, and its name.
#[derive(Clone, Copy, Default)]
pub(crate) struct SharedId {
    pub place: u64,
    pub id: JobId,
}

/// The taken jobs that threads can share, in the order in which they were taken, each once. A taken
/// job may be missing: the list is advice. Contracts see the list, and the place of the last job.
#[derive(Drop)]
pub(crate) struct SharedJobs {
    ids: ArrayVec<SharedId, MOST_SHARED>,
    // The place of the last taken job that threads can share, whether there was room to list it or
    // not.
    last: u64,
}

impl Model for SharedJobs {
    ghost use Rattle.job_board.specs.SharedJobs.{AreShared, SharedView};

    ghost Value = { SharedView };

    ghost view = { λ s. record { listed = s.ids.items; last = s.last } };

    ghost invariant = { λ s. AreShared (record { listed = s.ids.items; last = s.last }) };
}

impl SharedJobs {
    /// An empty list.
    pub(crate) fn new() -> SharedJobs
        ensures { result.listed ≡ [] }
    {
        SharedJobs {
            ids: ArrayVec::<SharedId, MOST_SHARED>::new(),
            last: 0,
        }
    }

    /// Lists a job that was taken, if threads can share it and there is room: at the end, with a place
    /// above all earlier ones.
    pub(crate) fn add(&mut self, id: JobId, task: Task)
        ensures { ListsLast id self.old self.new }
    {
        if !task.is_worth_sharing() {
            return;
        }
        let Some(place) = self.last.checked_add(1) else {
            return;
        };
        // A job that waited is not listed. This makes sure of it, whatever callers do.
        self.remove(id);
        self.last = place;
        let _ = self.ids.try_push(SharedId { place, id });
    }

    /// Forgets a job.
    pub(crate) fn remove(&mut self, id: JobId)
        ensures listed { self.new.listed ≡ without id self.old.listed }
        ensures last { self.new.last ≡ self.old.last }
    {
        self.ids.retain(|listed| listed.id != id);
    }

    /// The first listed job after that of a place. None if there is none.
    pub(crate) fn first_after(&self, place: u64) -> Option<SharedId>
        ensures first { result ≡ find (λ listed. nat_lt place listed.place) self.now.listed }
        ensures later { IfSome result (λ listed. place < listed.place) }
    {
        self.ids.iter().find(|listed| listed.place > place).copied()
    }
}
