// What a row tells.
ghost use Rattle.std.specs.Prelude.{◌≡◌, length};
ghost use Rattle.rows.specs.Waiting.{among};
ghost use Rattle.rows.specs.Places.{target_at};
ghost use Rattle.rows.specs.StoredRows.{waiting, waiting_of};

use crate::parts::{place_of, stands_somewhere};
use crate::plain::{PlainRow, Row};

impl PlainRow {
    /// The targets in use. A count above 16, which no book stores, puts all of them in use.
    pub fn in_use(&self) -> &[u8]
        ensures { result.now ≡ (waiting self.now).targets }
    {
        self.targets
            .get(..self.count as usize)
            .unwrap_or(&self.targets)
    }

    /// Whether the row waits for a job: whether the job is among the targets in use.
    pub fn waits_for(&self, job: u8) -> bool
        ensures { result ≡ among job (waiting self.now).targets }
    {
        // most rows do not: those in use are looked at only where the job stands at some place
        stands_somewhere(&self.targets, job) && self.in_use().contains(&job)
    }
}

impl Row {
    // The targets in use.
    pub(crate) fn targets(&self) -> &[u8]
        ensures { result.now ≡ (waiting_of self.now).targets }
    {
        self.plain.in_use()
    }

    /// How many of its targets the job still needs; an active job needs none.
    pub fn need(&self) -> u8
        ensures { result ≡ (waiting_of self.now).need }
    {
        self.plain.need
    }

    /// How many targets the job waits for, at most 16: 0 exactly if it is active.
    pub fn count(&self) -> usize
        ensures { result ≡ length (waiting_of self.now).targets }
    {
        self.targets().len()
    }

    /// The target at a place, which counts from 0 by rising target; past the last, none.
    pub fn target(&self, place: usize) -> Option<u8>
        ensures { result ≡ target_at (waiting_of self.now).targets place }
    {
        self.targets().get(place).copied()
    }

    /// Whether the job waits for another one: whether this is among its targets.
    pub fn waits_for(&self, job: usize) -> bool
        ensures { result ≡ among job (waiting_of self.now).targets }
    {
        place_of(self.targets(), job).is_some()
    }
}
