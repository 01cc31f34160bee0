// Why a detection is stopped.
ghost use Rattle.std.specs.Prelude.{◌≡◌};
ghost use Rattle.detection.specs.Detected.{number};
ghost use Rattle.detection.specs.declared.fault.DetectionFault.{DetectionFault};

use std::error::Error;
use std::fmt;

/// The refusals of a detection, in the order of its checks.
#[derive(Clone, Copy, PartialEq, Eq, Debug)]
pub enum DetectionFault {
    /// The initiator is no job of the table.
    NoSuchJob,

    /// There are fewer records than jobs.
    TooFewRecords,

    /// Messages wait in the carrier.
    MessagesWait,

    /// The carrier has room for fewer than two messages for each wait of the table.
    CarrierTooSmall,
}

impl fmt::Display for DetectionFault {
    fn fmt<W: fmt::Write>(&self, f: &mut fmt::Formatter<W>) -> fmt::Result {
        f.write_str(match self {
            DetectionFault::NoSuchJob => "there is no such job",
            DetectionFault::TooFewRecords => "there are fewer records than jobs",
            DetectionFault::MessagesWait => "messages wait in the carrier",
            DetectionFault::CarrierTooSmall => "the carrier is too small",
        })
    }
}

impl Error for DetectionFault {}

impl DetectionFault {
    /// The refusal's number, which the rules fix: 1, 10, 11 or 12. No other refusal of a detection has it.
    pub fn number(&self) -> u8
        ensures value { result ≡ number self.now }
        ensures own { (other : DetectionFault) → number other ≡ result → other ≡ self.now }
    {
        match *self {
            DetectionFault::NoSuchJob => 1,
            DetectionFault::TooFewRecords => 10,
            DetectionFault::MessagesWait => 11,
            DetectionFault::CarrierTooSmall => 12,
        }
    }
}
