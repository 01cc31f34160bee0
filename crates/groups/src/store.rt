// The rows, the trail and the open groups.
mod calls;

use arrayvec::ArrayVec;
use containers::{Full, Stack};
use std::error::Error;
use std::fmt;
use std::marker::Model;

/// How many rows there are: one for each number of a byte.
pub const ROWS: usize = 256;

/// How many groups are open at most, one in another.
pub const DEPTH_MAX: usize = 8;

/// How many undo records the trail holds at most, however much memory is lent.
pub const TRAIL_MAX: usize = 1024;

/// What stood in the row of a job before a write. The trail's memory is lent as a slice of these; what is in it does not matter.
#[derive(Clone, Copy, PartialEq, Eq, Debug)]
pub struct UndoRecord<P> {
    /// The job whose row it was.
    pub job: u8,

    /// The row.
    pub row: P,
}

impl<P: Default> Default for UndoRecord<P> {
    ghost use Rattle.std.specs.Prelude.{◌≡◌};

    ghost is_default = { λ old. (old.job ≡ 0) × P.is_default old.row };

    fn default() -> UndoRecord<P> {
        UndoRecord {
            job: 0,
            row: P::default(),
        }
    }
}

/// The refusal of a write: the trail has no room for the undo record.
#[derive(Clone, Copy, Drop, PartialEq, Eq, Debug)]
pub struct TrailFull;

impl fmt::Display for TrailFull {
    fn fmt<W: fmt::Write>(&self, f: &mut fmt::Formatter<W>) -> fmt::Result {
        f.write_str("the trail is full")
    }
}

impl Error for TrailFull {}

impl From<Full> for TrailFull {
    fn from(_full: Full) -> TrailFull {
        TrailFull
    }
}

/// Which group an ending is meant for, by the mark of its groups and by how many of them are open with it.
#[derive(Clone, Copy, Drop, PartialEq, Eq, Debug)]
pub struct TicketId {
    /// The mark of the groups.
    pub mark: u16,

    /// How many groups are open with it, from 1 to 8.
    pub depth: u8,
}

/// How a group ends.
#[derive(Clone, Copy, Drop, PartialEq, Eq, Debug)]
pub enum Ending {
    /// Its writes stay, undone only if the group around it is cancelled.
    Keep,

    /// Every row is as it was when the group was opened.
    Cancel,
}

/// The rows; the trail, undo records in lent memory; where each open group's part of the trail begins, the innermost last; and the
/// mark of the ticket ids.
#[derive(Drop)]
pub struct Groups<'a, P> {
    rows: [P; ROWS],
    trail: Stack<'a, UndoRecord<P>>,
    starts: ArrayVec<usize, DEPTH_MAX>,
    mark: u16,
}

impl<'a, P> Model for Groups<'a, P> {
    ghost use Rattle.std.specs.Prelude.{◌≡◌, min, true, length, reverse};
    ghost use Rattle.groups.specs.declared.store.TheConstants.{TRAIL_MAX};
    ghost use Rattle.groups.specs.Memory.{parts, tidy};
    ghost use Rattle.groups.specs.State.{State};

    ghost Value = { State P };

    ghost view = { λ g. record { rows = g.rows; groups = parts g.trail.items (reverse g.starts.items); mark = g.mark; trail_room = min g.trail.capacity TRAIL_MAX } };

    ghost invariant = { λ g. tidy (length g.trail.items) (reverse g.starts.items) ≡ true };
}
