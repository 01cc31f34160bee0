// Going through the targets of a job, and through the jobs that wait for it.
ghost use Rattle.std.specs.Iterator.{YieldsFirst, item_count};
ghost use Rattle.tables.specs.Walks.{targets_left, waiters_left};

use crate::table::{Table, TwoWayTable};
use std::ops::Range;

/// The targets of a job at the places that are left.
#[derive(Drop)]
pub struct Targets<'a, T> {
    pub(crate) table: &'a T,
    pub(crate) job: usize,
    pub(crate) places: Range<usize>,
}

impl<'a, T: Table> Iterator for Targets<'a, T> {
    type Item = u8;

    ghost next_gives = { YieldsFirst (targets_left T.rows) };

    ghost remaining = { item_count (targets_left T.rows) };

    fn next(&mut self) -> Option<u8> {
        let place = self.places.next()?;
        self.table.target(self.job, place)
    }
}

/// The jobs not below `from` that wait for a job.
#[derive(Drop)]
pub struct Waiters<'a, T> {
    pub(crate) table: &'a T,
    pub(crate) job: usize,
    pub(crate) from: usize,
}

impl<'a, T: TwoWayTable> Iterator for Waiters<'a, T> {
    type Item = usize;

    ghost next_gives = { YieldsFirst (waiters_left T.Table.rows) };

    ghost remaining = { item_count (waiters_left T.Table.rows) };

    fn next(&mut self) -> Option<usize> {
        if self.from >= self.table.jobs() {
            return None;
        }
        let waiter = self.table.next_waiter(self.job, self.from)?;
        self.from = waiter + 1;
        Some(waiter)
    }
}
