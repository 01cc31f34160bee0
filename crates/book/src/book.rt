// The book: a store that nobody else has, and whose groups are ended by tickets alone.
ghost use Rattle.std.specs.Prelude.{◌≡◌, ◌<◌, ◌≤◌, ◌+◌, length, IfOk, IsOk};
ghost use Rattle.store.specs.Plain.{requests, grants, plain};
ghost use Rattle.store.specs.Creation.{new_book};
ghost use Rattle.store.specs.Replies.{edit_reply};
ghost use Rattle.book.specs.Tickets.{open_reply, end_reply};
ghost use Rattle.groups.specs.History.{begun};
ghost use Rattle.groups.specs.declared.store.TheConstants.{DEPTH_MAX};
ghost use Rattle.histories.specs.Calls.{edits, opens, keeps, cancels, ends};
ghost use Rattle.histories.specs.CallSteps.{CallStep, Represents, SameGroups};
ghost use Rattle.histories.specs.Machines.{book_machine, view_of};
ghost use Rattle.store.specs.Snapshots.{snapshot_view};
ghost use Rattle.scripts.specs.Workspace.{workspace};
ghost use Rattle.scripts.specs.ScriptCalls.{CountsAs};
ghost use Rattle.scripts.specs.ScriptRuns.{ScriptStep, script_written};

use crate::ticket::{RefusedEnding, Ticket};
use carriers::Carrier;
use detection::RunRecord;
use groups::{Ending, UndoRecord};
use rows::PlainRow;
use scripts::{FinishedScript, StoppedScript, run_script};
use std::marker::Model;
use store::{BookFault, RefusedTicketId, Snapshot, Store};
use tables::{Table, TwoWayTable};

/// A book: which job waits for which, under groups that end by tickets. It is a two-way table of its jobs, at most 256.
#[derive(Drop)]
pub struct Book<'a> {
    store: Store<'a>,
}

impl<'a> Model for Book<'a> {
    ghost use Rattle.store.specs.Plain.{PlainBook};

    ghost Value = { PlainBook };

    ghost view = { λ b. b.store };
}

impl<'a> Book<'a> {
    /// A book in which every job is active. Its tickets will carry the mark, and what its groups would undo lies in the
    /// lent memory: as many undo records as this has places for, at most 1,024. Where more than 256 jobs are asked for, it has none.
    pub fn new(jobs: usize, mark: u16, memory: &'a mut [UndoRecord<PlainRow>]) -> Book<'a>
        ensures value { result ≡ new_book jobs mark (length memory.old) }
        ensures represents { Represents plain result begun }
    {
        Book {
            store: Store::new(jobs, mark, memory),
        }
    }

    /// A request: an active job waits for `need` of the targets, which are listed by rising number.
    ///
    /// Refused, with nothing changed, by the first that holds: there is no such job (`NoSuchJob`); it waits already (`Blocked`); the need is 0 or
    /// above the number of targets, or there are more than 16 (`WrongCounts`); a target is no job, is the job itself, or is not above the one
    /// before it (`WrongTarget`, with the place of the first such); a group is open, and the trail is full (`TrailFull`).
    pub fn request(&mut self, job: usize, need: u8, targets: &[u8]) -> Result<(), BookFault>
        ensures { CallStep plain self.old (edits (requests job need targets.now)) (edit_reply result) self.new }
    {
        self.store.request(job, need, targets)
    }

    /// A grant: the waiter no longer waits for the granter, which is active, and needs one less; when it needs none, its
    /// other waits go too.
    ///
    /// Refused, with nothing changed, by the first that holds: one of the two is no job (`NoSuchJob`); the granter waits itself
    /// (`GranterBlocked`); the waiter does not wait for it (`NoSuchWait`); a group is open, and the trail is full (`TrailFull`).
    pub fn grant(&mut self, granter: usize, waiter: usize) -> Result<(), BookFault>
        ensures { CallStep plain self.old (edits (grants granter waiter)) (edit_reply result) self.new }
    {
        self.store.grant(granter, waiter)
    }

    /// Opens a group inside the others. Its ticket must be handed back, by keeping the group or by cancelling it. Refused with `TooDeep`, and
    /// nothing changed, where eight are open.
    pub fn open(&mut self) -> Result<Ticket, BookFault>
        ensures called { CallStep plain self.old opens (open_reply result) self.new }
        ensures given { length self.old.state.groups < DEPTH_MAX → IsOk result }
        ensures ticket { IfOk result (λ t. (t.mark ≡ self.old.state.mark) × (t.depth ≡ length self.old.state.groups + 1)) }
    {
        match self.store.open() {
            Ok(id) => Ok(Ticket::of(id)),
            Err(fault) => Err(fault),
        }
    }

    /// Ends the innermost group, and its edits stay, undone only if the group around it is cancelled. A ticket that is
    /// not the innermost group's comes back with `NotInnermost`, and nothing changes.
    pub fn keep(&mut self, ticket: Ticket) -> Result<(), RefusedEnding>
        ensures called { CallStep plain self.old (keeps ticket.mark ticket.depth) (end_reply result) self.new }
        ensures taken { ticket.mark ≡ self.old.state.mark → ticket.depth ≡ length self.old.state.groups → 0 < ticket.depth → IsOk result }
    {
        self.end(Ending::Keep, ticket)
    }

    /// Ends the innermost group, and every row is as it was when the group was opened. A ticket that is not the innermost
    /// group's comes back with `NotInnermost`, and nothing changes.
    pub fn cancel(&mut self, ticket: Ticket) -> Result<(), RefusedEnding>
        ensures called { CallStep plain self.old (cancels ticket.mark ticket.depth) (end_reply result) self.new }
        ensures taken { ticket.mark ≡ self.old.state.mark → ticket.depth ≡ length self.old.state.groups → 0 < ticket.depth → IsOk result }
    {
        self.end(Ending::Cancel, ticket)
    }

    // Ends the innermost group; a ticket that is not that group's comes back.
    fn end(&mut self, ending: Ending, ticket: Ticket) -> Result<(), RefusedEnding>
        ensures { CallStep plain self.old (ends ending ticket.mark ticket.depth) (end_reply result) self.new }
    {
        match self.store.end(ending, ticket.spent()) {
            Ok(()) => Ok(()),
            Err(RefusedTicketId { fault, id }) => Err(RefusedEnding {
                fault,
                ticket: Ticket::of(id),
            }),
        }
    }

    /// What is seen of the book: its rows, and how many groups are open.
    pub fn snapshot(&self) -> Snapshot
        ensures { snapshot_view result ≡ view_of (book_machine plain) self.now }
    {
        self.store.snapshot()
    }

    /// How many groups are open, from 0 to 8.
    pub fn depth(&self) -> usize
        ensures value { result ≡ length self.now.state.groups }
        ensures bound { result ≤ DEPTH_MAX }
    {
        self.store.depth()
    }

    /// Runs a script: its commands one after the other, to its end or to the first fault. Detections use the records and the carrier,
    /// and write four answer bytes each, one behind the other. At the end, and after a fault, the groups that the script has left open
    /// are cancelled, the innermost first; what was done outside of them stays. `StoppedScript` tells the fault, which command it
    /// stopped, and where this begins; a script of more than 8,192 bytes is not begun. For the book a script is the calls that it counts as.
    pub fn run_script<C: Carrier>(
        &mut self,
        script: &[u8],
        records: &mut [RunRecord],
        carrier: &mut C,
        answers: &mut [u8],
    ) -> Result<FinishedScript, StoppedScript>
        ensures ran { ScriptStep self.old (workspace records.old (C.Carrier.carried carrier.old) answers.old) script.now result self.new (workspace records.new (C.Carrier.carried carrier.new) answers.new) }
        ensures counts { CountsAs (book_machine plain) self.old script.now result self.new }
        ensures written { script_written result ≤ length answers.new }
        ensures groups { SameGroups self.old self.new }
    {
        run_script(&mut self.store, script, records, carrier, answers)
    }
}

impl<'a> Table for Book<'a> {
    ghost rows = { λ b. b.state.rows };

    fn jobs(&self) -> usize {
        self.store.jobs()
    }

    fn need(&self, job: usize) -> u8 {
        self.store.need(job)
    }

    fn target_count(&self, job: usize) -> usize {
        self.store.target_count(job)
    }

    fn target(&self, job: usize, place: usize) -> Option<u8> {
        self.store.target(job, place)
    }

    fn waits_for(&self, waiter: usize, job: usize) -> bool {
        self.store.waits_for(waiter, job)
    }
}

impl<'a> TwoWayTable for Book<'a> {}
