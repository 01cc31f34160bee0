// What a book tells, as a table that is read both ways. Beyond the last job every row is idle.
ghost use Rattle.std.specs.Prelude.{◌≡◌, ◌≤◌, true, length, IfSome};
ghost use Rattle.rows.specs.Waiting.{at};
ghost use Rattle.rows.specs.Storage.{sound};
ghost use Rattle.rows.specs.StoredRows.{waiting_of, waiting_or_idle};
ghost use Rattle.groups.specs.declared.store.TheConstants.{DEPTH_MAX};
ghost use Rattle.store.specs.Snapshots.{snapshot_view};
ghost use Rattle.histories.specs.Machines.{book_machine, view_of};
ghost use Rattle.store.specs.Plain.{plain};

use crate::snapshot::Snapshot;
use crate::store::Store;
use crate::stored::{need_of, targets_of};
use rows::{PlainRow, Row};
use tables::{Table, TwoWayTable};

impl<'a> Store<'a> {
    // The row of a job, as it is stored. Questions read it so, since a check for each would be most of a detection's work.
    fn stored(&self, job: usize) -> Option<&PlainRow>
        ensures value { waiting_or_idle result ≡ at self.now.state.rows job }
        ensures lawful { IfSome result (λ p. sound p.now.need p.now.count p.now.targets ≡ true) }
    {
        self.groups.rows()[..self.jobs].get(job)
    }

    /// The row of a job, checked; as every stored row obeys the law, the check can't fail.
    pub(crate) fn row(&self, job: usize) -> Row
        ensures { waiting_of result ≡ at self.now.state.rows job }
    {
        match self.stored(job) {
            Some(plain) => Row::try_from(*plain).unwrap(),
            None => Row::idle(),
        }
    }

    /// What is seen of the book: its rows, and how many groups are open.
    pub fn snapshot(&self) -> Snapshot
        ensures { snapshot_view result ≡ view_of (book_machine plain) self.now }
    {
        Snapshot {
            jobs: self.jobs,
            rows: *self.groups.rows(),
            depth: self.depth(),
        }
    }

    /// How many groups are open, from 0 to 8.
    pub fn depth(&self) -> usize
        ensures value { result ≡ length self.now.state.groups }
        ensures bound { result ≤ DEPTH_MAX }
    {
        self.groups.depth()
    }
}

impl<'a> Table for Store<'a> {
    ghost rows = { λ b. b.state.rows };

    fn jobs(&self) -> usize {
        self.jobs
    }

    fn need(&self, job: usize) -> u8 {
        need_of(self.stored(job))
    }

    fn target_count(&self, job: usize) -> usize {
        targets_of(self.stored(job)).len()
    }

    fn target(&self, job: usize, place: usize) -> Option<u8> {
        targets_of(self.stored(job)).get(place).copied()
    }

    fn waits_for(&self, waiter: usize, job: usize) -> bool {
        // no target is beyond the last job
        job < self.jobs
            && self
                .stored(waiter)
                .is_some_and(|plain| plain.waits_for(job as u8))
    }
}

impl<'a> TwoWayTable for Store<'a> {}
