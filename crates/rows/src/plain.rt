// The row as it is stored, and the same row with its law.
mod changes;
mod checks;
mod questions;

ghost use Rattle.std.specs.Prelude.{◌≡◌, true};
ghost use Rattle.rows.specs.Storage.{sound};

use std::error::Error;
use std::fmt;

/// How many targets a row has at most.
pub const TARGETS_MAX: usize = 16;

/// A row as it is stored: the first `count` of the targets are in use. The rules fix this form, which is copied into lent memory, and
/// with it that the unused places are 0, so that two stored rows that obey the rules are equal exactly if they have the same need and
/// the same targets.
#[derive(Clone, Copy, PartialEq, Eq, Debug)]
pub struct PlainRow {
    /// How many of its targets the job still needs: 0 where it is active, else from 1 to `count`.
    pub need: u8,

    /// How many targets are in use, from 0 to 16.
    pub count: u8,

    /// The targets, by rising number; behind those in use 0.
    pub targets: [u8; TARGETS_MAX],
}

/// A row whose type carries the law: a need of at most the count, at most 16 targets in use, these rising, and 0 at the unused places.
#[derive(Clone, Copy, Debug)]
pub struct Row {
    plain: PlainRow,
    ghost lawful: { sound plain.need plain.count plain.targets ≡ true },
}

/// The refusal of a stored row that breaks the law: it is no row.
#[derive(Clone, Copy, Debug, PartialEq, Eq)]
pub struct LawBroken;

impl fmt::Display for LawBroken {
    fn fmt<W: fmt::Write>(&self, f: &mut fmt::Formatter<W>) -> fmt::Result {
        f.write_str("the row breaks the row law")
    }
}

impl Error for LawBroken {}

/// Why a request makes no row.
#[derive(Clone, Copy, Debug, PartialEq, Eq)]
pub enum RowFault {
    /// The need is 0 or above the number of targets, or there are more than 16 targets.
    WrongCounts,

    /// The target at this place, from 0, is no job, is the job itself, or is not above the target before it; it is the first such.
    WrongTarget(usize),
}

impl fmt::Display for RowFault {
    fn fmt<W: fmt::Write>(&self, f: &mut fmt::Formatter<W>) -> fmt::Result {
        f.write_str(match self {
            RowFault::WrongCounts => "the need or the number of targets is wrong",
            RowFault::WrongTarget(_) => "a target is wrong",
        })
    }
}

impl Error for RowFault {}
