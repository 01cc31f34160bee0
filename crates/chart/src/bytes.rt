// The bytes of rows, read where they lie.
ghost use Rattle.std.specs.Prelude.{◌≡◌, ◌≤◌};
ghost use Rattle.rows.specs.declared.plain.TheConstants.{TARGETS_MAX};
ghost use Rattle.chart.specs.Layout.{need_byte, count_byte, target_bytes, row_of};
ghost use Rattle.chart.specs.Check.{row_right, first_wrong_row};

use rows::{places_fit, row_fits};
use tables::JOBS_MAX;

/// How many bytes a job has: its need, its number of targets, and sixteen target bytes.
pub const ROW_BYTES: usize = 18;

/// The bytes of a job.
pub type RowBytes = [u8; ROW_BYTES];

/// How many bytes a chart has at most: those of 256 jobs.
pub const CHART_MAX: usize = ROW_BYTES * JOBS_MAX;

/// Where the need stands in a job's bytes.
pub const NEED: usize = 0;

/// Where the number of targets stands.
pub const COUNT: usize = 1;

/// Where the targets begin.
pub const TARGETS: usize = 2;

/// The need that a job's bytes say.
pub fn need_in(row: &RowBytes) -> u8
    ensures { result ≡ need_byte row.now }
{
    row[NEED]
}

/// The number of targets that a job's bytes say.
pub fn count_in(row: &RowBytes) -> usize
    ensures { result ≡ count_byte row.now }
{
    row[COUNT] as usize
}

/// The target bytes in use.
pub fn targets_in(row: &RowBytes) -> &[u8]
    requires { count_byte row.now ≤ TARGETS_MAX }
    ensures { result.now ≡ (row_of row.now).targets }
{
    &row[TARGETS..TARGETS + count_in(row)]
}

// All target bytes, in use or not.
fn target_bytes(row: &RowBytes) -> &[u8]
    ensures { result.now ≡ target_bytes row.now }
{
    &row[TARGETS..]
}

// Whether the bytes of `job`, one of `jobs` jobs, are right.
fn is_right(jobs: usize, job: usize, row: &RowBytes) -> bool
    ensures { result ≡ row_right jobs job row.now }
{
    places_fit(count_in(row), target_bytes(row))
        && row_fits(jobs, job, need_in(row), targets_in(row))
}

/// The first job whose bytes are not right.
pub fn first_wrong_row(rows: &[RowBytes]) -> Option<usize>
    ensures { result ≡ first_wrong_row rows.now }
{
    rows.iter()
        .enumerate()
        .position(|(job, row)| !is_right(rows.len(), job, row))
}
