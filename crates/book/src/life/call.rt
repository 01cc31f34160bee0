// The calls of a life, and what they answer.
ghost use Rattle.std.specs.Prelude.{◌≡◌};
ghost use Rattle.book.specs.Moments.{written_by};

use detection::{Detection, DetectionFault};
use groups::{Ending, TicketId};
use scripts::{FinishedScript, StoppedScript};
use store::{BookFault, Edit, RefusedTicketId};

/// A call. An ending is made with a ticket that tells what the ticket id tells, whether or not an opening has given such a ticket.
#[derive(Clone, Copy, Debug)]
pub enum Call<'c> {
    /// An opening.
    Open,

    /// An ending.
    End {
        /// Whether the group is kept or cancelled.
        ending: Ending,

        /// What the ticket tells.
        id: TicketId,
    },

    /// A detection.
    Detect {
        /// The initiator.
        job: usize,
    },

    /// A request or a grant.
    Edit(Edit<'c>),

    /// The run of a script.
    Run {
        /// Its bytes.
        script: &'c [u8],
    },
}

/// The answer of a call. A refused ending tells what the ticket tells that comes back.
#[derive(Clone, Copy, Drop, PartialEq, Eq, Debug)]
pub enum Answer {
    /// Of an opening: what the ticket tells, or the refusal.
    Opened(Result<TicketId, BookFault>),

    /// Of an ending: done, or the refusal.
    Ended(Result<(), RefusedTicketId>),

    /// Of a detection: what it has found, or what has stopped it.
    Detected(Result<Detection, DetectionFault>),

    /// Of a request or a grant: done, or the refusal.
    Edited(Result<(), BookFault>),

    /// Of a script: how far it came, or what has stopped it.
    Ran(Result<FinishedScript, StoppedScript>),
}

impl Answer {
    /// How many answer bytes the call has written; only a script writes any.
    pub fn written(&self) -> usize
        ensures { result ≡ written_by self.now }
    {
        match self {
            Answer::Ran(Ok(finished)) => finished.written,
            Answer::Ran(Err(stopped)) => stopped.written,
            _ => 0,
        }
    }
}
