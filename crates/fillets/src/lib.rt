//! Fillets, made in groups of their own: on every way out a group's ticket is handed back.
#![tactic(auto)]

mod early_return;
mod fillet;
mod second_group;

pub use early_return::round_edge;
pub use fillet::{FACES, FilletFault};
pub use second_group::round_twice;
