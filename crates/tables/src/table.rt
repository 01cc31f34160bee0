// What a table tells, and what a two-way table tells besides.
ghost use Rattle.std.specs.Prelude.{◌≡◌, ℕ, ◌≤◌, true, List, length};
ghost use Rattle.rows.specs.Waiting.{Waiting, at, among};
ghost use Rattle.rows.specs.Places.{target_at};
ghost use Rattle.tables.specs.Tables.{lawful, first_from};
ghost use Rattle.tables.specs.Waits.{waits, waiters};
ghost use Rattle.tables.specs.declared.table.TheConstants.{WAITS_MAX, JOBS_MAX};
ghost use Rattle.tables.specs.Walks.{targets_left, waiters_left};

use crate::walks::{Targets, Waiters};
use rows::TARGETS_MAX;

/// How many jobs a table has at most.
pub const JOBS_MAX: usize = 256;

/// How many waits a table has at most: 4,096.
pub const WAITS_MAX: usize = JOBS_MAX * TARGETS_MAX;

/// Jobs, and what each waits for. Beyond the last job every row is idle, and past the last place there is none.
pub trait Table {
    ghost rows: { Self → List Waiting };

    /// How many jobs there are, from 0 to 256. Their rows obey the row law.
    fn jobs(&self) -> usize
        ensures value { result ≡ length (rows self.now) }
        ensures bound { result ≤ JOBS_MAX }
        ensures lawful { lawful (rows self.now) ≡ true };

    /// How many of its targets a job still needs, from 0, where it is active, to 16; beyond the last job 0.
    fn need(&self, job: usize) -> u8
        ensures { result ≡ (at (rows self.now) job).need };

    /// How many jobs a job waits for, from 0 to 16; beyond the last job 0.
    fn target_count(&self, job: usize) -> usize
        ensures { result ≡ length (at (rows self.now) job).targets };

    /// The target at a place in a job's row, from 0 on; past the last place, and beyond the last job, there is none.
    fn target(&self, job: usize, place: usize) -> Option<u8>
        ensures { result ≡ target_at (at (rows self.now) job).targets place };

    /// Whether a job waits for another; beyond the last job none does.
    fn waits_for(&self, waiter: usize, job: usize) -> bool
        ensures { result ≡ among job (at (rows self.now) waiter).targets }
    {
        // by the places: `targets` would be no plainer, since only a sized table has it, and a `dyn` one would lose this method
        (0..self.target_count(waiter)).any(|place| {
            self.target(waiter, place)
                .is_some_and(|target| target as usize == job)
        })
    }

    /// How many waits there are, from 0 to 4,096: each target of each row is one.
    fn wait_count(&self) -> usize
        ensures value { result ≡ waits (rows self.now) }
        ensures bound { result ≤ WAITS_MAX }
    {
        // no chain with `sum`: it would ask that the sum of any first jobs fits, of which a loop's invariant speaks anyway
        let mut waits = 0;
        for job in 0..self.jobs() {
            waits += self.target_count(job);
        }
        waits
    }

    /// The targets of a job, one after the other, by rising number; beyond the last job there are none.
    final fn targets(&self, job: usize) -> Targets<'_, Self>
    where
        Self: Sized,
        ensures { targets_left rows result ≡ (at (rows self.now) job).targets }
    {
        Targets {
            table: self,
            job,
            places: 0..self.target_count(job),
        }
    }
}

/// A table that is read against the waits too.
pub trait TwoWayTable: Table {
    /// The first job not below `from` that waits for a job, or none. Going on from each answer, one pass finds every waiter.
    fn next_waiter(&self, job: usize, from: usize) -> Option<usize>
        ensures { result ≡ first_from from (waiters (Self.Table.rows self.now) job) }
    {
        (from..self.jobs()).find(|waiter| self.waits_for(*waiter, job))
    }

    /// The waiter of a job at a place, from 0 on, the waiters taken by rising number; past the last place there is none.
    fn waiter(&self, job: usize, place: usize) -> Option<usize>
        ensures { result ≡ target_at (waiters (Self.Table.rows self.now) job) place }
    {
        // tried as a chain of `filter` and `nth`, whose proof did not close
        if place >= self.jobs() {
            return None;
        }
        let mut waiter = self.next_waiter(job, 0)?;
        for _ in 0..place {
            waiter = self.next_waiter(job, waiter + 1)?;
        }
        Some(waiter)
    }

    /// The waiters of a job, one after the other, by rising number.
    final fn waiters(&self, job: usize) -> Waiters<'_, Self>
    where
        Self: Sized,
        ensures { waiters_left Self.Table.rows result ≡ waiters (Self.Table.rows self.now) job }
    {
        Waiters {
            table: self,
            job,
            from: 0,
        }
    }
}
