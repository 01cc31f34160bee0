// Why the book refuses a call.
ghost use Rattle.std.specs.Prelude.{◌≡◌};
ghost use Rattle.store.specs.Faults.{number, value, of_row};
ghost use Rattle.store.specs.declared.fault.BookFault.{BookFault};
ghost use Rattle.store.specs.declared.fault.BookFault.TheVariants.{TrailFull as FullTrail};

use groups::{TicketId, TrailFull};
use rows::RowFault;
use std::error::Error;
use std::fmt;

/// The refusals of the book's calls, by their numbers, from 1 to 9; docs/RULES.md has the order of each call's checks.
#[derive(Clone, Copy, PartialEq, Eq, Debug)]
pub enum BookFault {
    /// A request or a grant names a job that the book does not have.
    NoSuchJob,

    /// The job of a request waits already.
    Blocked,

    /// The need of a request is 0 or above the number of targets, or there are more than 16 targets.
    WrongCounts,

    /// The target at this place, from 0, is no job, is the job itself, or is not above the target before it; it is the first such.
    WrongTarget(usize),

    /// A group is open, and the trail has no room for the undo record.
    TrailFull,

    /// The granter waits itself.
    GranterBlocked,

    /// The waiter does not wait for the granter.
    NoSuchWait,

    /// Eight groups are open.
    TooDeep,

    /// No group is open, or the ticket or the ticket id is not that of the innermost.
    NotInnermost,
}

impl fmt::Display for BookFault {
    fn fmt<W: fmt::Write>(&self, f: &mut fmt::Formatter<W>) -> fmt::Result {
        f.write_str(match self {
            BookFault::NoSuchJob => "there is no such job",
            BookFault::Blocked => "the job is blocked",
            BookFault::WrongCounts => "the need or the number of targets is wrong",
            BookFault::WrongTarget(_) => "a target is wrong",
            BookFault::TrailFull => "the trail is full",
            BookFault::GranterBlocked => "the granter is blocked",
            BookFault::NoSuchWait => "the waiter does not wait for the granter",
            BookFault::TooDeep => "too many groups are open",
            BookFault::NotInnermost => "the ticket is not that of the innermost group",
        })
    }
}

impl Error for BookFault {}

impl BookFault {
    /// The refusal's number, which the rules fix, from 1 to 9.
    /// Other faults have a number too, each by a definition of its own, and nothing goes over all of them, so that a trait would be
    /// no plainer; the same of the value.
    pub fn number(&self) -> u8
        ensures { result ≡ number self.now }
    {
        match *self {
            BookFault::NoSuchJob => 1,
            BookFault::Blocked => 2,
            BookFault::WrongCounts => 3,
            BookFault::WrongTarget(_) => 4,
            BookFault::TrailFull => 5,
            BookFault::GranterBlocked => 6,
            BookFault::NoSuchWait => 7,
            BookFault::TooDeep => 8,
            BookFault::NotInnermost => 9,
        }
    }

    /// The place of the first wrong target, from 0; no other refusal of the book carries a value, and none has this number and value.
    pub fn value(&self) -> Option<usize>
        ensures value { result ≡ value self.now }
        ensures own { (other : BookFault) → number other ≡ number self.now → value other ≡ result → other ≡ self.now }
    {
        match *self {
            BookFault::WrongTarget(place) => Some(place),
            _ => None,
        }
    }
}

// A request that makes no row is refused for the row's reason. Written by hand, as the next one is: a derive would not promise
// which fault comes out.
impl From<RowFault> for BookFault {
    ghost from_gives = { λ x y. y ≡ of_row x };

    fn from(fault: RowFault) -> BookFault {
        match fault {
            RowFault::WrongCounts => BookFault::WrongCounts,
            RowFault::WrongTarget(place) => BookFault::WrongTarget(place),
        }
    }
}

// A write that the trail has no room for.
impl From<TrailFull> for BookFault {
    ghost from_gives = { λ _ y. y ≡ FullTrail };

    fn from(_full: TrailFull) -> BookFault {
        BookFault::TrailFull
    }
}

/// A refused ending, with its ticket id.
#[derive(Clone, Copy, Drop, PartialEq, Eq, Debug)]
pub struct RefusedTicketId {
    /// Why it is refused.
    pub fault: BookFault,

    /// The ticket id, which comes back.
    pub id: TicketId,
}

impl fmt::Display for RefusedTicketId {
    fn fmt<W: fmt::Write>(&self, f: &mut fmt::Formatter<W>) -> fmt::Result {
        let fault = self.fault;
        write!(f, "{fault}")
    }
}

impl Error for RefusedTicketId {}
