// The book's data, with its law.
mod calls;
mod questions;

use groups::Groups;
use rows::PlainRow;
use std::marker::Model;

/// A plain store: the rows of the first `jobs` jobs, under groups. Memory is fixed: groups have 256 rows, whatever the number of jobs. A clause
/// sees a book: what its creation has fixed, the rows of its jobs, what each open group would undo, its mark, and the trail's size.
#[derive(Drop)]
pub struct Store<'a> {
    jobs: usize,
    groups: Groups<'a, PlainRow>,
}

impl<'a> Model for Store<'a> {
    ghost use Rattle.rows.specs.StoredRows.{waiting};
    ghost use Rattle.groups.specs.StateViews.{view as seen};
    ghost use Rattle.store.specs.Plain.{PlainBook, book_of};
    ghost use Rattle.store.specs.Memory.{IsLawful};

    ghost Value = { PlainBook };

    ghost view = { λ b. book_of (seen b.jobs waiting b.groups) };

    ghost invariant = { λ b. IsLawful b.jobs b.groups };
}
