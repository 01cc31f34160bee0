//! The detection: whether a job is stuck or only slow, told by a run of the exchange over any table and any carrier.
//!
//! [`detect`] makes one run, with lent records and a lent carrier, and answers a [`Detection`].
#![tactic(auto)]

mod detector;
mod fault;
mod lawful;
mod puts;
mod reactions;
mod verdict;

pub use detector::{CAPACITY_PER_WAIT, detect};
pub use exchange::RunRecord;
pub use fault::DetectionFault;
pub use verdict::{Detection, Verdict};
