// What a chart tells.
ghost use Rattle.std.specs.Prelude.{◌≡◌};
ghost use Rattle.rows.specs.Waiting.{at};
ghost use Rattle.chart.specs.Views.{rows_of};

use crate::bytes::{need_in, targets_in};
use crate::chart::Chart;
use tables::{Table, TwoWayTable};

impl<'a> Chart<'a> {
    // The targets of a job; beyond the last job there are none.
    fn targets_of(&self, job: usize) -> &[u8]
        ensures { result.now ≡ (at (rows_of self.now) job).targets }
    {
        match self.rows.get(job) {
            Some(row) => targets_in(row),
            None => &[],
        }
    }
}

impl<'a> Table for Chart<'a> {
    ghost rows = { rows_of };

    fn jobs(&self) -> usize {
        self.rows.len()
    }

    fn need(&self, job: usize) -> u8 {
        self.rows.get(job).map_or(0, need_in)
    }

    fn target_count(&self, job: usize) -> usize {
        self.targets_of(job).len()
    }

    fn target(&self, job: usize, place: usize) -> Option<u8> {
        self.targets_of(job).get(place).copied()
    }
}

impl<'a> TwoWayTable for Chart<'a> {}
