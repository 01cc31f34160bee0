// A stack: the record put last comes first.
ghost use Rattle.std.specs.Prelude.{◌≡◌, ◌<◌, [], ◌∷◌, ◌++◌, length};
ghost use Rattle.std.specs.List.{insert};
ghost use Rattle.containers.specs.Held.{vacant, holding};
ghost use Rattle.containers.specs.Taken.{TookAt};
ghost use Rattle.containers.specs.Orders.{gives_newest, last_loses_none};

use crate::container::{Container, Full};
use std::marker::Model;

/// A stack over lent cells, which gives the record put last.
///
/// The records are the first `len` cells, the newest last. The cells are lent, since there is no heap; so their number in use
/// lies beside them.
#[derive(Drop)]
pub struct Stack<'a, T> {
    cells: &'a mut [T],
    len: usize,
}

impl<'a, T> Model for Stack<'a, T> {
    ghost use Rattle.std.specs.Prelude.{◌≤◌, length, take};
    ghost use Rattle.containers.specs.Held.{Held};

    ghost Value = { Held T };

    ghost view = { λ s. record { items = take s.len s.cells.now; capacity = length s.cells.now } };

    ghost invariant = { λ s. s.len ≤ length s.cells.now };
}

impl<'a, T: Copy> Stack<'a, T> {
    /// An empty stack over the cells, which has room for as many records as there are cells.
    pub fn new(cells: &'a mut [T]) -> Stack<'a, T>
        ensures { result ≡ vacant (length cells.old) }
    {
        Stack { cells, len: 0 }
    }

    /// Writes the record at `place` into `out`, the oldest record being at place 0, and answers yes; the others keep their order.
    /// Past the last place it answers no, and neither the stack nor `out` changes.
    pub fn take_at(&mut self, place: usize, out: &mut T) -> bool
        ensures { TookAt place result self.old self.new out.old out.new }
    {
        if place >= self.len {
            return false;
        }
        *out = self.cells[place];
        self.cells[place..self.len].rotate_left(1);
        self.len -= 1;
        true
    }

    /// Lets go of every record.
    pub fn clear(&mut self)
        ensures { self.new ≡ holding self.old [] }
    {
        self.len = 0;
    }
}

impl<'a, T: Copy> Container<T> for Stack<'a, T> {
    ghost held = { λ s. s };

    ghost keeps = { λ _ _. Unit {0} };

    ghost gives = { gives_newest };

    ghost loses_none = { last_loses_none };

    fn len(&self) -> usize {
        self.len
    }

    fn capacity(&self) -> usize {
        self.cells.len()
    }

    fn put(&mut self, element: T) -> Result<(), Full> {
        if self.len == self.cells.len() {
            return Err(Full);
        }
        self.cells[self.len] = element;
        self.len += 1;
        Ok(())
    }

    // The newest record comes.
    fn take(&mut self, out: &mut T) -> bool {
        if self.len == 0 {
            return false;
        }
        self.len -= 1;
        *out = self.cells[self.len];
        true
    }
}

#[cfg(test)]
mod tests {
    use super::*;

    // At each capacity it is filled, refuses, and gives its records back, the newest first.
    #[test]
    fn gives_the_newest_first(rt: HostRuntime) {
        for capacity in 0..4 {
            let mut cells = [0; 3];
            let mut stack = Stack::new(&mut cells[..capacity]);
            for record in 0..capacity {
                assert!(rt; stack.put(record).is_ok());
            }
            assert!(rt; stack.put(9) == Err(Full));
            assert_eq!(rt; stack.len(), capacity);
            let mut out = 7;
            for record in (0..capacity).rev() {
                assert!(rt; stack.take(&mut out));
                assert_eq!(rt; out, record);
            }
            out = 7;
            assert!(rt; !stack.take(&mut out));
            assert_eq!(rt; out, 7);
        }
    }

    // The record at each place leaves alone, and past the last place none does.
    #[test]
    fn gives_the_record_at_a_place(rt: HostRuntime) {
        for place in 0..4 {
            let mut cells = [0; 3];
            let mut stack = Stack::new(&mut cells);
            for record in 0..3 {
                assert!(rt; stack.put(record).is_ok());
            }
            let mut out = 7;
            assert!(rt; stack.take_at(place, &mut out) == (place < 3));
            let taken = if place < 3 { place } else { 7 };
            assert_eq!(rt; out, taken);
            let newest = if place == 2 { 1 } else { 2 };
            assert!(rt; stack.take(&mut out));
            assert_eq!(rt; out, newest);
        }
    }

    // Cleared, it is empty, and has all its room again.
    #[test]
    fn has_room_when_cleared(rt: HostRuntime) {
        let mut cells = [0; 2];
        let mut stack = Stack::new(&mut cells);
        assert!(rt; stack.put(1).is_ok() && stack.put(2).is_ok() && stack.put(3).is_err());
        stack.clear();
        assert_eq!(rt; stack.len(), 0);
        assert_eq!(rt; stack.capacity(), 2);
        assert!(rt; stack.put(4).is_ok() && stack.put(5).is_ok() && stack.put(6).is_err());
    }
}
