//! Containers over memory that their user lends, for records of any type that can be copied.
//!
//! [`Container`] says what all of them do; a [`Queue`] gives the oldest record first, and a [`Stack`] the newest.
#![tactic(auto)]

mod container;
mod queue;
mod stack;

pub use container::{Container, Full};
pub use queue::Queue;
pub use stack::Stack;
