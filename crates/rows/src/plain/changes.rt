// The rows that a request and a grant make.
ghost use Rattle.std.specs.Prelude.{◌≡◌, ◌-◌, ◌<◌, length};
ghost use Rattle.std.specs.List.{remove};
ghost use Rattle.rows.specs.StoredRows.{waiting_of, seen, seen_some, granted_by};
ghost use Rattle.rows.specs.Changes.{requested};

use crate::parts::{counts_fit, first_wrong, padded, place_of, without_place};
use crate::plain::{PlainRow, Row, RowFault};

impl Row {
    /// The row of a request by `job`, one of `jobs` jobs: it needs `need` of the targets. Refused with the first that is wrong: the counts, where
    /// the need is 0 or above the number of targets, or there are more than 16; or the first target that is no job, is the job itself, or is not
    /// above the one before it, with its place.
    pub fn request(jobs: usize, job: usize, need: u8, targets: &[u8]) -> Result<Row, RowFault>
        ensures { seen result ≡ requested jobs job need targets.now }
    {
        let count = targets.len();
        if need == 0 || !counts_fit(need, count) {
            return Err(RowFault::WrongCounts);
        }
        if let Some(place) = first_wrong(jobs, job, targets) {
            return Err(RowFault::WrongTarget(place));
        }
        Ok(Row {
            plain: PlainRow {
                need,
                count: count as u8,
                targets: padded(targets),
            },
        })
    }

    /// The row after a grant: the wait for the granter goes and the need falls by one, and at none the other waits go too.
    /// None where the row does not wait for the granter.
    pub fn granted(&self, granter: usize) -> Option<Row>
        ensures { seen_some result ≡ granted_by granter (waiting_of self.now) }
    {
        let place = place_of(self.targets(), granter)?;
        if self.plain.need <= 1 {
            return Some(Row::idle());
        }
        Some(self.without_wait(place))
    }

    // The row with a need less by one, and without the wait at a place.
    fn without_wait(&self, place: usize) -> Row
        requires { (1 < self.now.plain.need) × (place < length (waiting_of self.now).targets) }
        ensures need { (waiting_of result).need ≡ (waiting_of self.now).need - 1 }
        ensures targets { (waiting_of result).targets ≡ remove (waiting_of self.now).targets place }
    {
        let targets = self.targets();
        Row {
            plain: PlainRow {
                need: self.plain.need - 1,
                count: (targets.len() - 1) as u8,
                targets: without_place(targets, place),
            },
        }
    }
}
