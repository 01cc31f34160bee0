//! The wait book, as its clients have it: a store whose groups end by tickets alone, with scripts, and whole lives.
//!
//! A [`Book`] gives a [`Ticket`] for each group that it opens, and the group ends by that ticket. [`live`] lives a whole life by one call.
#![tactic(auto)]

mod book;
mod law;
mod life;
mod ticket;

pub use book::Book;
pub use groups::{DEPTH_MAX, Ending, TRAIL_MAX, TicketId, UndoRecord};
pub use law::plain_books_simulate_histories;
pub use life::{Answer, Call, Creation, Moment, TooFewMoments, live};
pub use rows::{PlainRow, TARGETS_MAX};
pub use scripts::{FinishedScript, SCRIPT_MAX, ScriptFault, StoppedScript};
pub use store::{BookFault, Edit, RefusedTicketId, Snapshot};
pub use tables::{JOBS_MAX, Table, TwoWayTable, WAITS_MAX};
pub use ticket::{RefusedEnding, Ticket};
