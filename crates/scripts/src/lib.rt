//! Scripts: strings of bytes with calls and detections, which a store runs as a whole.
//!
//! [`run_script`] runs one, and answers a [`FinishedScript`] or a [`StoppedScript`].
#![tactic(auto)]

mod answer;
mod command;
mod fault;
mod place;
mod reader;
mod run;
mod steps;
mod tally;

pub use fault::{FinishedScript, ScriptFault, StoppedScript};
pub use run::{SCRIPT_MAX, run_script};
