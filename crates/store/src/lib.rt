//! The plain store: which job waits for which, with groups of edits that are kept or cancelled.
//!
//! Groups of a [`Store`] end by ticket ids, which anyone can make: so the owner of a store decides who may end its groups.
#![tactic(auto)]

mod calls;
mod fault;
mod snapshot;
mod store;
mod stored;

pub use calls::Edit;
pub use fault::{BookFault, RefusedTicketId};
pub use snapshot::Snapshot;
pub use store::Store;
