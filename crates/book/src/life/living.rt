// Living a whole life.
ghost use Rattle.std.specs.Prelude.{◌≡◌, ◌≤◌, length, take, drop, is_err, nat_lt, IfOk, IfErr};
ghost use Rattle.book.specs.Law.{LawOfPlainBooks};
ghost use Rattle.book.specs.Grants.{GrantsAreAllowed};
ghost use Rattle.book.specs.Moments.{IsLife, written_by};
ghost use Rattle.book.specs.LifeSteps.{IsStep};
ghost use Rattle.scripts.specs.Workspace.{workspace};
ghost use Rattle.histories.specs.Calls.{edits, opens, ends};
ghost use Rattle.histories.specs.CallSteps.{CallStep};
ghost use Rattle.store.specs.Plain.{plain};
ghost use Rattle.store.specs.Replies.{edit_reply, open_reply_by_id, end_reply_by_id, edit_of};

use crate::book::Book;
use crate::life::call::{Answer, Call};
use crate::life::moment::Moment;
use crate::ticket::{RefusedEnding, Ticket};
use carriers::Carrier;
use detection::{RunRecord, detect};
use groups::{Ending, TicketId, UndoRecord};
use rows::PlainRow;
use std::error::Error;
use std::fmt;
use store::{BookFault, Edit, RefusedTicketId, Snapshot};

/// What a life's creation takes besides the memory for the trail.
#[derive(Clone, Copy, Drop, PartialEq, Eq, Debug)]
pub struct Creation {
    /// The number of jobs, from 1 to 256; any other number gives a book without jobs.
    pub jobs: usize,

    /// The mark of the book's tickets.
    pub mark: u16,
}

/// The refusal of a life: there are fewer moments than calls.
#[derive(Clone, Copy, Drop, PartialEq, Eq, Debug)]
pub struct TooFewMoments;

impl fmt::Display for TooFewMoments {
    fn fmt<W: fmt::Write>(&self, f: &mut fmt::Formatter<W>) -> fmt::Result {
        f.write_str("there are fewer moments than calls")
    }
}

impl Error for TooFewMoments {}

impl<'a> Book<'a> {
    // Opens a group, and takes its ticket apart.
    fn open_apart(&mut self) -> Result<TicketId, BookFault>
        ensures { CallStep plain self.old opens (open_reply_by_id result) self.new }
    {
        match self.open() {
            Ok(ticket) => Ok(ticket.spent()),
            Err(fault) => Err(fault),
        }
    }

    // Ends the innermost group with a ticket that tells what the ticket id tells; where it is refused it is taken apart.
    fn end_by(&mut self, ending: Ending, id: TicketId) -> Result<(), RefusedTicketId>
        ensures { CallStep plain self.old (ends ending id.mark id.depth) (end_reply_by_id result) self.new }
    {
        let ticket = Ticket::of(id);
        let ended = match ending {
            Ending::Keep => self.keep(ticket),
            Ending::Cancel => self.cancel(ticket),
        };
        match ended {
            Ok(()) => Ok(()),
            Err(RefusedEnding { fault, ticket }) => Err(RefusedTicketId {
                fault,
                id: ticket.spent(),
            }),
        }
    }

    // Makes an edit.
    fn edit(&mut self, edit: Edit<'_>) -> Result<(), BookFault>
        ensures { CallStep plain self.old (edits (edit_of edit.entry)) (edit_reply result) self.new }
    {
        match edit {
            Edit::Grant { granter, waiter } => self.grant(granter, waiter),
            Edit::Request { job, need, targets } => self.request(job, need, targets),
        }
    }

    // Makes a call.
    fn perform<C: Carrier>(
        &mut self,
        call: Call<'_>,
        records: &mut [RunRecord],
        carrier: &mut C,
        answers: &mut [u8],
    ) -> Answer
        ensures performed { IsStep self.old (workspace records.old (C.Carrier.carried carrier.old) answers.old) call.entry result self.new (workspace records.new (C.Carrier.carried carrier.new) answers.new) }
        ensures written { written_by result ≤ length answers.new }
    {
        match call {
            Call::Open => Answer::Opened(self.open_apart()),
            Call::End { ending, id } => Answer::Ended(self.end_by(ending, id)),
            Call::Detect { job } => Answer::Detected(detect(self, job, records, carrier)),
            Call::Edit(edit) => Answer::Edited(self.edit(edit)),
            Call::Run { script } => {
                Answer::Ran(self.run_script(script, records, carrier, answers))
            }
        }
    }
}

/// Lives a whole life: a book is created, and the calls are made on it, one after the other. Each moment gets the answer of its call and
/// what is seen of the book after it; what is seen at creation comes back. The trail holds undo records, as many as there are places, at most
/// 1,024. Detections, in scripts and outside of them, use the records and the carrier; scripts write their answers to the bytes, one
/// behind the other. `TooFewMoments`, with nothing changed, where there are fewer moments than calls.
pub fn live<C: Carrier>(
    creation: Creation,
    trail: &mut [UndoRecord<PlainRow>],
    calls: &[Call<'_>],
    records: &mut [RunRecord],
    carrier: &mut C,
    answers: &mut [u8],
    moments: &mut [Moment],
) -> Result<Snapshot, TooFewMoments>
    ensures law { LawOfPlainBooks }
    ensures grants { GrantsAreAllowed }
    ensures refused { is_err result ≡ nat_lt (length moments.old) (length calls.now) }
    ensures lived { IfOk result (λ first. IsLife creation.jobs creation.mark (length trail.old) calls.now first (take (length calls.now) moments.new) (workspace records.old (C.Carrier.carried carrier.old) answers.old) (workspace records.new (C.Carrier.carried carrier.new) answers.new)) }
    ensures rest { drop (length calls.now) moments.new ≡ drop (length calls.now) moments.old }
    ensures unchanged { IfErr result (λ _. (trail.new ≡ trail.old) × (moments.new ≡ moments.old) × (records.new ≡ records.old) × (carrier.new ≡ carrier.old) × (answers.new ≡ answers.old)) }
{
    if moments.len() < calls.len() {
        return Err(TooFewMoments);
    }
    let mut book = Book::new(creation.jobs, creation.mark, trail);
    let first = book.snapshot();
    let mut written = 0;
    for (place, call) in calls.iter().enumerate() {
        let answer = book.perform(*call, records, carrier, &mut answers[written..]);
        written += answer.written();
        moments[place] = Moment {
            answer,
            seen: book.snapshot(),
        };
    }
    Ok(first)
}
