//! The exchange: what each job keeps during a run, the rules by which it reacts to messages, and what holds of every run.
//!
//! The rules are definitions (`specs/Rules`). The code is a [`RunRecord`] and two functions whose contracts are theorems.
#![tactic(auto)]

mod laws;
mod record;

pub use laws::{ended_runs_tell, runs_are_bounded};
pub use record::RunRecord;
