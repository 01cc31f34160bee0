//! The wait book: which job of a design tool waits for which, N out of M, under groups of edits that are kept or cancelled as a whole; and
//! whether a job is stuck or only slow.
//!
//! This crate is the one to depend on. It hands on what a client uses of the crates below, with the specs that their contracts cite, and has
//! no code of its own.
//!
//! - [`Book`] is the book, and [`Ticket`] the right to end a group.
//! - [`detect`] tells of one job whether it is stuck, by messages over a carrier: a [`QueueCarrier`], a [`StackCarrier`] or a [`Picker`].
//! - [`Chart`] is a book read from bytes, [`write_chart`] writes one, and [`reduce`] tells of all jobs which are stuck.
//! - [`live`] lives a whole life of a book by one call.
//! - [`plain_books_simulate_histories`], [`books_simulate_histories`], [`lives_follow`], [`runs_are_bounded`], [`ended_runs_tell`],
//!   [`loosened_jobs_can_be_freed`] and [`row_law_is_tested`] have nothing to run: their contracts are theorems.
#![tactic(auto)]

pub use book::{
    Answer, Book, BookFault, Call, Creation, DEPTH_MAX, Edit, Ending, FinishedScript, JOBS_MAX,
    Moment, PlainRow, RefusedEnding, RefusedTicketId, SCRIPT_MAX, ScriptFault, Snapshot,
    StoppedScript, TARGETS_MAX, TRAIL_MAX, Table, Ticket, TicketId, TooFewMoments, TwoWayTable,
    UndoRecord, WAITS_MAX, live, plain_books_simulate_histories,
};
pub use carriers::{
    Carrier, CarrierFull, Kind, Message, Picker, QueueCarrier, StackCarrier, Wait, drain,
};
pub use chart::{CHART_MAX, Chart, ChartFault, ROW_BYTES, write_chart};
pub use detection::{CAPACITY_PER_WAIT, Detection, DetectionFault, RunRecord, Verdict, detect};
pub use exchange::{ended_runs_tell, runs_are_bounded};
pub use histories::books_simulate_histories;
pub use lives::lives_follow;
pub use reduction::{LOOSE, ReductionFault, STUCK, reduce};
pub use rows::row_law_is_tested;
pub use tables::loosened_jobs_can_be_freed;
