// What can end the day early.
use std::io;
use thiserror::Error;
use wait_book::{DetectionFault, ReductionFault, TooFewMoments};

/// Nothing can be printed, the day has more calls than there are moments for, or the reduction or the detection refuses a call.
#[derive(Debug, Drop, Error)]
pub enum Trouble {
    #[error("a line can't be printed")]
    Output(#[from] io::Error),
    #[error("there are fewer moments than calls")]
    NotLived(#[from] TooFewMoments),
    #[error("the reduction refuses a call")]
    NotReduced(#[from] ReductionFault),
    #[error("the detection refuses a call")]
    NotDetected(#[from] DetectionFault),
}
