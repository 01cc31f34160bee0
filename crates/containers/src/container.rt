// What every container does, whatever the order in which its records come.
ghost use Rattle.std.specs.Prelude.{◌≡◌, ◌≤◌, ◌∷◌, length, is_ok, if◌then◌else◌};
ghost use Rattle.std.specs.List.Sorted.{IsPermutation};
ghost use Rattle.containers.specs.Held.{Held, has_room, with_last};
ghost use Rattle.containers.specs.Taken.{TookInto};

use std::error::Error;
use std::fmt;

/// The refusal of a put: as many records are held as there is room for.
#[derive(Clone, Copy, Drop, PartialEq, Eq, Debug)]
pub struct Full;

impl fmt::Display for Full {
    fn fmt<W: fmt::Write>(&self, f: &mut fmt::Formatter<W>) -> fmt::Result {
        f.write_str("the container is full")
    }
}

impl Error for Full {}

/// Records that are put, and come back one by one.
pub trait Container<T: Copy> {
    // The records that it holds, in the order in which they were put, and how many it can hold.
    ghost held: { Self → Held T };

    // What a put leaves as it is, besides the records that are held.
    ghost keeps: { Self → Self → Type 0 };

    // Which record comes next, and what it leaves: the container's order.
    ghost gives: { Self → T → Self → Type 0 };

    /// How many records it holds, from 0 to its capacity.
    fn len(&self) -> usize
        ensures value { result ≡ length (held self.now).items }
        ensures bound { result ≤ (held self.now).capacity };

    /// How many records it can hold.
    fn capacity(&self) -> usize
        ensures { result ≡ (held self.now).capacity };

    /// Puts the record last; a full container refuses it with [`Full`], and stays as it is.
    fn put(&mut self, element: T) -> Result<(), Full>
        ensures test { is_ok result ≡ has_room (held self.old) }
        ensures after { held self.new ≡ (if is_ok result then with_last (held self.old) element else held self.old) }
        ensures beside { keeps self.old self.new };

    /// Writes the record that comes next into `out`, and answers yes; an empty container answers no, and neither it nor `out`
    /// changes.
    fn take(&mut self, out: &mut T) -> bool
        ensures { TookInto held gives result self.old self.new out.old out.new };

    // No record is lost: those held are the one that comes and those that it leaves.
    ghost loses_none: { (s : Self) (x : T) (t : Self) → gives s x t → IsPermutation (x ∷ (held t).items) (held s).items };
}
