//! Rows of any copyable type, with nested undo: a group of writes is kept, or cancelled as a whole.
//!
//! [`Groups`] holds the rows. Whoever opens a group gets a [`TicketId`], and ends the group by it.
#![tactic(auto)]

mod store;

pub use store::{DEPTH_MAX, Ending, Groups, ROWS, TRAIL_MAX, TicketId, TrailFull, UndoRecord};
