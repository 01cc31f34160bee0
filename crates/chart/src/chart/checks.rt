// Checking bytes, and making a chart of them.
ghost use Rattle.std.specs.Prelude.{◌≡◌, IfOk, length};
ghost use Rattle.std.specs.Simd.{first_chunks};
ghost use Rattle.chart.specs.Faults.{check_answer};
ghost use Rattle.chart.specs.declared.bytes.TheConstants.{ROW_BYTES};
ghost use Rattle.chart.specs.Check.{checked, chart_rows};
ghost use Rattle.chart.specs.Views.{rows_of, rows_counted};

use crate::bytes::{CHART_MAX, ROW_BYTES, RowBytes, first_wrong_row};
use crate::chart::Chart;
use crate::fault::ChartFault;

// The rows that lie in the bytes, or the first reason why the bytes are no chart.
fn checked_rows(bytes: &[u8]) -> Result<&[RowBytes], ChartFault>
    ensures counted { rows_counted result ≡ checked bytes.now }
    ensures rows { IfOk result (λ rows. rows.now ≡ first_chunks ROW_BYTES (length rows.now) bytes.now) }
{
    let length = bytes.len();
    if length == 0 || length % ROW_BYTES != 0 || length > CHART_MAX {
        return Err(ChartFault::WrongLength);
    }
    let (rows, _) = bytes.as_chunks();
    match first_wrong_row(rows) {
        Some(job) => Err(ChartFault::WrongRow(job)),
        None => Ok(rows),
    }
}

impl<'a> Chart<'a> {
    /// The number of jobs, from 1 to 256, or the first reason why the bytes are no chart: 18, a wrong length; 19, a wrong row, with its job.
    pub fn check(bytes: &[u8]) -> Result<usize, ChartFault>
        ensures { check_answer result ≡ checked bytes.now }
    {
        Ok(checked_rows(bytes)?.len())
    }

    /// The chart that lies in the bytes; refused bytes have no jobs.
    pub fn new(bytes: &'a [u8]) -> Chart<'a>
        ensures { rows_of result ≡ chart_rows bytes.now }
    {
        Chart {
            rows: checked_rows(bytes).unwrap_or(&[]),
        }
    }
}
