//! The central reduction: which jobs of a table are stuck.
//!
//! [`reduce`] writes a byte for each job, [`LOOSE`] or [`STUCK`].
#![tactic(auto)]

mod fault;
mod marking;
mod marks;
mod passes;

pub use fault::ReductionFault;
pub use marks::{LOOSE, STUCK};
pub use passes::reduce;
