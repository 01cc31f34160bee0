// What a snapshot shows.
ghost use Rattle.std.specs.Prelude.{◌≡◌, true, [], map};
ghost use Rattle.rows.specs.StoredRows.{stored_as, all_sound, waiting_or_idle};
ghost use Rattle.rows.specs.Waiting.{at};
ghost use Rattle.store.specs.Snapshots.{snapshot_view};

use crate::snapshot::Snapshot;
use crate::stored::{need_of, targets_of};
use groups::ROWS;
use rows::PlainRow;
use tables::{Table, TwoWayTable};

impl Snapshot {
    /// What is seen of a book without jobs. The default is the same.
    pub fn blank() -> Snapshot
        ensures { snapshot_view result ≡ record { rows = []; depth = 0 } }
    {
        Snapshot {
            jobs: 0,
            rows: [PlainRow::idle(); ROWS],
            depth: 0,
        }
    }

    /// The row of each job, by rising number: need, number of targets, targets, and 0 at the places that no target is in.
    pub fn rows(&self) -> &[PlainRow]
        ensures value { result.now ≡ map stored_as (snapshot_view self.now).rows }
        ensures lawful { all_sound result.now ≡ true }
    {
        &self.rows[..self.jobs]
    }

    /// How many groups were open, from 0 to 8.
    pub fn depth(&self) -> usize
        ensures { result ≡ (snapshot_view self.now).depth }
    {
        self.depth
    }

    // The row of a job, as it is stored.
    fn stored(&self, job: usize) -> Option<&PlainRow>
        ensures { waiting_or_idle result ≡ at (snapshot_view self.now).rows job }
    {
        self.rows[..self.jobs].get(job)
    }
}

impl Default for Snapshot {
    ghost is_default = { λ s. snapshot_view s ≡ record { rows = []; depth = 0 } };

    fn default() -> Snapshot {
        Snapshot::blank()
    }
}

impl Table for Snapshot {
    ghost rows = { λ s. (snapshot_view s).rows };

    fn jobs(&self) -> usize {
        self.jobs
    }

    fn need(&self, job: usize) -> u8 {
        need_of(self.stored(job))
    }

    fn target_count(&self, job: usize) -> usize {
        targets_of(self.stored(job)).len()
    }

    fn target(&self, job: usize, place: usize) -> Option<u8> {
        targets_of(self.stored(job)).get(place).copied()
    }
}

impl TwoWayTable for Snapshot {}
