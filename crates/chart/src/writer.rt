// Writing a table as a chart.
ghost use Rattle.std.specs.Prelude.{◌≡◌, ◌*◌, ◌≤◌, length, take, drop};
ghost use Rattle.rows.specs.declared.plain.TheConstants.{TARGETS_MAX};
ghost use Rattle.rows.specs.Waiting.{at};
ghost use Rattle.chart.specs.declared.bytes.TheConstants.{CHART_MAX, ROW_BYTES};
ghost use Rattle.chart.specs.Writing.{bytes_of_row, bytes_of_rows, ReadsBack};

use crate::bytes::{CHART_MAX, COUNT, NEED, ROW_BYTES, RowBytes, TARGETS};
use tables::Table;

/// Writes the rows of a table as a chart, and returns its length: [`ROW_BYTES`] for each job. The bytes behind it stay as they
/// are. The longest chart has room, so nothing is refused. A table without jobs has no bytes, which [`Chart::check`] refuses.
///
/// [`Chart::check`]: crate::Chart::check
pub fn write_chart<T: Table>(table: &T, bytes: &mut [u8; CHART_MAX]) -> usize
    ensures len { result ≡ ROW_BYTES * length (T.Table.rows table.now) }
    ensures bound { result ≤ CHART_MAX }
    ensures written { take result bytes.new ≡ bytes_of_rows (T.Table.rows table.now) }
    ensures rest { drop result bytes.new ≡ drop result bytes.old }
    ensures reads_back { ReadsBack (T.Table.rows table.now) (take result bytes.new) }
{
    let jobs = table.jobs();
    for job in 0..jobs {
        let start = job * ROW_BYTES;
        bytes[start..start + ROW_BYTES].copy_from_slice(&row_in_bytes(table, job));
    }
    jobs * ROW_BYTES
}

// The bytes of a job.
fn row_in_bytes<T: Table>(table: &T, job: usize) -> RowBytes
    requires { length (at (T.Table.rows table.now) job).targets ≤ TARGETS_MAX }
    ensures { result ≡ bytes_of_row (at (T.Table.rows table.now) job) }
{
    let count = table.target_count(job);
    let mut row = [0; ROW_BYTES];
    row[NEED] = table.need(job);
    row[COUNT] = count as u8;
    for place in 0..count {
        row[TARGETS + place] = table.target(job, place).unwrap();
    }
    row
}
