// What is seen of a book.
mod shows;

ghost use Rattle.std.specs.Prelude.{◌≡◌, ◌≤◌, true};
ghost use Rattle.rows.specs.Obeys.{rows_obey};
ghost use Rattle.rows.specs.StoredRows.{plain_fits};
ghost use Rattle.tables.specs.declared.table.TheConstants.{JOBS_MAX};

use groups::ROWS;
use rows::PlainRow;

/// What is seen of a book: the rows of its jobs, as they are stored, and how many groups are open. Each row obeys the row law, so that a
/// snapshot is a two-way table itself.
#[derive(Clone, Copy, Debug)]
pub struct Snapshot {
    pub(crate) jobs: usize,
    pub(crate) rows: [PlainRow; ROWS],
    pub(crate) depth: usize,
    ghost few: { jobs ≤ JOBS_MAX },
    ghost lawful: { rows_obey (plain_fits jobs) 0 rows ≡ true },
}
