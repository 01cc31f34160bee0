//! A row of the book: how many of its targets a job still needs, and the targets.
//!
//! A [`PlainRow`] is how a row is stored; a [`Row`] is one that obeys the row law, which its type carries.
#![tactic(auto)]

mod law;
mod parts;
mod plain;
#[cfg(test)]
mod tests;

pub use law::row_law_is_tested;
pub use parts::{places_fit, row_fits};
pub use plain::{LawBroken, PlainRow, Row, RowFault, TARGETS_MAX};
