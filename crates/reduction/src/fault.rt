// Why a reduction is refused.
ghost use Rattle.std.specs.Prelude.{◌≡◌};
ghost use Rattle.reduction.specs.Faults.{number};

use std::error::Error;
use std::fmt;

/// The refusal of a reduction.
#[derive(Clone, Copy, PartialEq, Eq, Debug)]
pub enum ReductionFault {
    /// There are fewer bytes than jobs.
    TooShort,
}

impl fmt::Display for ReductionFault {
    fn fmt<W: fmt::Write>(&self, f: &mut fmt::Formatter<W>) -> fmt::Result {
        f.write_str(match self {
            ReductionFault::TooShort => "there are fewer bytes than jobs",
        })
    }
}

impl Error for ReductionFault {}

impl ReductionFault {
    /// The refusal's number, which the rules fix.
    pub fn number(&self) -> u8
        ensures { result ≡ number self.now }
    {
        match *self {
            ReductionFault::TooShort => 10,
        }
    }
}
