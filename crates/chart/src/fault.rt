// Why bytes are no chart.
ghost use Rattle.std.specs.Prelude.{◌≡◌};
ghost use Rattle.chart.specs.Faults.{number, value};
ghost use Rattle.chart.specs.declared.fault.ChartFault.{ChartFault};

use std::error::Error;
use std::fmt;

/// The first reason why bytes are no chart.
#[derive(Clone, Copy, Debug, PartialEq, Eq)]
pub enum ChartFault {
    /// The length is 0, not a multiple of 18, or above that of 256 jobs.
    WrongLength,

    /// The row of this job breaks the row law, or a target byte that is not in use is not 0; it is the first such job.
    WrongRow(usize),
}

impl fmt::Display for ChartFault {
    fn fmt<W: fmt::Write>(&self, f: &mut fmt::Formatter<W>) -> fmt::Result {
        match self {
            ChartFault::WrongLength => f.write_str("the length is wrong"),
            ChartFault::WrongRow(job) => write!(f, "the row of job {job} is wrong"),
        }
    }
}

impl Error for ChartFault {}

impl ChartFault {
    /// The refusal's number, which the rules fix: 18 or 19.
    pub fn number(&self) -> u8
        ensures { result ≡ number self.now }
    {
        match *self {
            ChartFault::WrongLength => 18,
            ChartFault::WrongRow(_) => 19,
        }
    }

    /// The job of a wrong row. No other refusal of a chart has this number and value.
    pub fn value(&self) -> Option<usize>
        ensures value { result ≡ value self.now }
        ensures own { (other : ChartFault) → number other ≡ number self.now → value other ≡ result → other ≡ self.now }
    {
        match *self {
            ChartFault::WrongLength => None,
            ChartFault::WrongRow(job) => Some(job),
        }
    }
}
