// The chart's data, with its law.
mod checks;
mod reads;

ghost use Rattle.std.specs.Prelude.{◌≡◌, ◌≤◌, true, length};
ghost use Rattle.tables.specs.declared.table.TheConstants.{JOBS_MAX};
ghost use Rattle.rows.specs.Obeys.{rows_obey};
ghost use Rattle.chart.specs.Check.{row_right};

use crate::bytes::RowBytes;

/// A two-way table read from lent bytes, 18 for each job. It is copied by its place: no byte is copied.
#[derive(Clone, Copy, Debug)]
pub struct Chart<'a> {
    rows: &'a [RowBytes],
    ghost few: { length rows.now ≤ JOBS_MAX },
    ghost right: { rows_obey (row_right (length rows.now)) 0 rows.now ≡ true },
}
