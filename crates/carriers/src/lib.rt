//! Carriers of messages: an interface with a meaning that leaves the order of delivery open, and three orders that keep it.
//!
//! [`Carrier`] says what all of them do. A [`QueueCarrier`] hands out the oldest message, a [`StackCarrier`] the newest, and a
//! [`Picker`] the one that its user picks.
#![tactic(auto)]

mod carrier;
mod counted;
mod draining;
mod message;
mod picked;
#[cfg(test)]
mod tests;

pub use carrier::{Carrier, CarrierFull};
pub use counted::{Counted, Picker, QueueCarrier, StackCarrier};
pub use draining::drain;
pub use message::{Kind, Message, Wait};
pub use picked::Picked;
