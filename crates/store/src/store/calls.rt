// Creation, and the five calls.
ghost use Rattle.std.specs.Prelude.{◌≡◌, ◌<◌, ◌≤◌, ◌-◌, true, length, if◌then◌else◌};
ghost use Rattle.rows.specs.Law.{row_fits};
ghost use Rattle.rows.specs.StoredRows.{waiting_of};
ghost use Rattle.groups.specs.State.{summary, full, written};
ghost use Rattle.groups.specs.History.{begun};
ghost use Rattle.store.specs.declared.fault.BookFault.TheVariants.{TrailFull};
ghost use Rattle.histories.specs.Calls.{edits, opens, ends, done};
ghost use Rattle.store.specs.Plain.{requests, grants, plain, refusal};
ghost use Rattle.histories.specs.CallSteps.{Represents, CallStep};
ghost use Rattle.store.specs.Creation.{created, new_book};
ghost use Rattle.tables.specs.declared.table.TheConstants.{JOBS_MAX};
ghost use Rattle.store.specs.Replies.{edit_reply, open_reply_by_id, end_reply_by_id, edit_of};
ghost use Rattle.histories.specs.Rules.{book_state, says, after};

use crate::calls::Edit;
use crate::fault::{BookFault, RefusedTicketId};
use crate::store::Store;
use groups::{Ending, Groups, TicketId, UndoRecord};
use rows::{PlainRow, Row};
use tables::{JOBS_MAX, Table};

// How many jobs a book is created with: none where more are asked for than there can be.
fn created(jobs: usize) -> usize
    ensures value { result ≡ created jobs }
    ensures bound { result ≤ JOBS_MAX }
{
    if jobs <= JOBS_MAX { jobs } else { 0 }
}

impl<'a> Store<'a> {
    /// A book in which every job is active. Its ticket ids will carry the mark, and what its groups would undo lies in the
    /// lent memory: as many undo records as this has places for, at most 1,024. Where more than 256 jobs are asked for, it has none.
    pub fn new(jobs: usize, mark: u16, memory: &'a mut [UndoRecord<PlainRow>]) -> Store<'a>
        ensures value { result ≡ new_book jobs mark (length memory.old) }
        ensures represents { Represents plain result begun }
    {
        Store {
            jobs: created(jobs),
            groups: Groups::new(PlainRow::idle(), mark, memory),
        }
    }

    /// A request: an active job waits for `need` of the targets, which are listed by rising number.
    ///
    /// Refused, with nothing changed, by the first that holds: there is no such job (`NoSuchJob`); it waits already (`Blocked`); the need is 0 or
    /// above the number of targets, or there are more than 16 (`WrongCounts`); a target is no job, is the job itself, or is not above the one
    /// before it (`WrongTarget`, with the place of the first such); a group is open, and the trail is full (`TrailFull`).
    pub fn request(&mut self, job: usize, need: u8, targets: &[u8]) -> Result<(), BookFault>
        ensures { CallStep plain self.old (edits (requests job need targets.now)) (edit_reply result) self.new }
    {
        let jobs = self.jobs();
        if job >= jobs {
            return Err(BookFault::NoSuchJob);
        }
        if self.need(job) > 0 {
            return Err(BookFault::Blocked);
        }
        let row = Row::request(jobs, job, need, targets)?;
        self.write(job, row)
    }

    /// A grant: the waiter no longer waits for the granter, which is active, and needs one less; when it needs none, its
    /// other waits go too.
    ///
    /// Refused, with nothing changed, by the first that holds: one of the two is no job (`NoSuchJob`); the granter waits itself
    /// (`GranterBlocked`); the waiter does not wait for it (`NoSuchWait`); a group is open, and the trail is full (`TrailFull`).
    pub fn grant(&mut self, granter: usize, waiter: usize) -> Result<(), BookFault>
        ensures { CallStep plain self.old (edits (grants granter waiter)) (edit_reply result) self.new }
    {
        let jobs = self.jobs();
        if granter >= jobs || waiter >= jobs {
            return Err(BookFault::NoSuchJob);
        }
        if self.need(granter) > 0 {
            return Err(BookFault::GranterBlocked);
        }
        let row = self
            .row(waiter)
            .granted(granter)
            .ok_or(BookFault::NoSuchWait)?;
        self.write(waiter, row)
    }

    // Writes the row of a job; refused, with nothing changed, if the trail is full.
    fn write(&mut self, job: usize, row: Row) -> Result<(), BookFault>
        requires job { job < length self.old.state.rows }
        requires lawful { row_fits (length self.old.state.rows) job (waiting_of row) ≡ true }
        ensures value { edit_reply result ≡ (if full self.old.state.trail_room (summary self.old.state) then refusal TrailFull else done) }
        ensures after { self.new ≡ (if full self.old.state.trail_room (summary self.old.state) then self.old else book_state self.old.fixed (written self.old.state job (waiting_of row))) }
    {
        Ok(self.groups.write(job as u8, row.into())?)
    }

    /// Opens a group inside the others, and answers its ticket id. Refused with `TooDeep`, and nothing changed, where eight are open.
    pub fn open(&mut self) -> Result<TicketId, BookFault>
        ensures { CallStep plain self.old opens (open_reply_by_id result) self.new }
    {
        self.groups.open().ok_or(BookFault::TooDeep)
    }

    /// Ends the innermost group: its edits stay, undone only if the group around it is cancelled; or every row is as it was when the
    /// group was opened. A ticket id that is not the innermost group's comes back with `NotInnermost`, and nothing changes.
    pub fn end(&mut self, ending: Ending, id: TicketId) -> Result<(), RefusedTicketId>
        ensures { CallStep plain self.old (ends ending id.mark id.depth) (end_reply_by_id result) self.new }
    {
        match self.groups.end(ending, id) {
            Ok(()) => Ok(()),
            Err(id) => Err(RefusedTicketId {
                fault: BookFault::NotInnermost,
                id,
            }),
        }
    }

    /// Ends the innermost group, as its ticket id would.
    pub fn end_innermost(&mut self, ending: Ending)
        requires { 0 < length self.old.state.groups }
        ensures value { says plain self.old (ends ending self.old.state.mark (length self.old.state.groups)) ≡ done }
        ensures after { self.new ≡ after plain self.old (ends ending self.old.state.mark (length self.old.state.groups)) }
        ensures mark { self.new.state.mark ≡ self.old.state.mark }
        ensures depth { length self.new.state.groups ≡ length self.old.state.groups - 1 }
    {
        let innermost = self.groups.innermost();
        self.end(ending, innermost).unwrap();
    }

    /// Makes an edit, by [`grant`](Store::grant) or [`request`](Store::request), with their refusals.
    pub fn edit(&mut self, edit: Edit<'_>) -> Result<(), BookFault>
        ensures { CallStep plain self.old (edits (edit_of edit.entry)) (edit_reply result) self.new }
    {
        match edit {
            Edit::Grant { granter, waiter } => self.grant(granter, waiter),
            Edit::Request { job, need, targets } => self.request(job, need, targets),
        }
    }
}
