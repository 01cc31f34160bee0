//! Tables of waits, read only through what they tell; closed sets and lawful grants.
//!
//! A [`Table`] tells what each job waits for, a [`TwoWayTable`] also who waits for a job; [`Indexed`] makes the second of the first.
#![tactic(auto)]

mod freeing;
mod indexed;
mod table;
mod walks;

pub use freeing::loosened_jobs_can_be_freed;
pub use indexed::{INDEX_WORDS, Indexed, JOB_WORDS, WORD_JOBS};
pub use table::{JOBS_MAX, Table, TwoWayTable, WAITS_MAX};
pub use walks::{Targets, Waiters};
