// Tickets.
ghost use Rattle.std.specs.Prelude.{◌≡◌};

use groups::TicketId;
use std::fmt;
use std::marker::Model;
use store::BookFault;

/// The right to end a group: whoever has it must hand it back. It can be neither copied nor let go, and outside of this crate neither
/// made nor taken apart.
#[derive(Debug)]
pub struct Ticket {
    mark: u16,
    depth: u8,
}

impl Model for Ticket {
    ghost use Rattle.groups.specs.declared.store.TicketId.{TicketId};

    ghost Value = { TicketId };

    ghost view = { λ t. record { mark = t.mark; depth = t.depth } };
}

/// A refused ending, with its ticket, which is to be handed in where it fits. It can no more be let go than the ticket.
#[derive(Debug)]
pub struct RefusedEnding {
    /// Why it is refused.
    pub fault: BookFault,

    /// The ticket, which comes back.
    pub ticket: Ticket,
}

impl fmt::Display for RefusedEnding {
    fn fmt<W: fmt::Write>(&self, f: &mut fmt::Formatter<W>) -> fmt::Result {
        let fault = self.fault;
        write!(f, "{fault}")
    }
}

impl Ticket {
    /// The mark of the book that gave the ticket.
    pub fn mark(&self) -> u16
        ensures { result ≡ self.now.mark }
    {
        self.mark
    }

    /// How many groups were open when it was given, its own among them: from 1 to 8.
    pub fn depth(&self) -> u8
        ensures { result ≡ self.now.depth }
    {
        self.depth
    }

    // The ticket that tells what a ticket id tells.
    pub(crate) fn of(id: TicketId) -> Ticket
        ensures { result ≡ id }
    {
        Ticket {
            mark: id.mark,
            depth: id.depth,
        }
    }

    // What the ticket tells; nobody has it any more.
    pub(crate) fn spent(self) -> TicketId
        ensures { result ≡ self }
    {
        let Ticket { mark, depth } = self;
        TicketId { mark, depth }
    }
}
