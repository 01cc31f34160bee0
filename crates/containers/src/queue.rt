// A queue: the record put first comes first.
ghost use Rattle.std.specs.Prelude.{◌≡◌, ◌<◌, ◌∷◌, length};
ghost use Rattle.containers.specs.Held.{vacant};
ghost use Rattle.containers.specs.Rings.{IsCellAfter};
ghost use Rattle.containers.specs.Orders.{gives_oldest, first_loses_none};

use crate::container::{Container, Full};
use std::marker::Model;

/// A queue over lent cells, which gives the record put first.
///
/// The cells are a ring: the oldest record is in cell `head`, the `len` records follow it round the end of the cells, and the next one
/// goes into cell `tail`. The cells are lent, since there is no heap.
#[derive(Drop)]
pub struct Queue<'a, T> {
    cells: &'a mut [T],
    head: usize,
    tail: usize,
    len: usize,
}

impl<'a, T> Model for Queue<'a, T> {
    ghost use Rattle.std.specs.Prelude.{length, take};
    ghost use Rattle.containers.specs.Held.{Held};
    ghost use Rattle.containers.specs.Rings.{turned, Ring};

    ghost Value = { Held T };

    ghost view = { λ q. record { items = take q.len (turned q.head q.cells.now); capacity = length q.cells.now } };

    ghost invariant = { λ q. Ring (length q.cells.now) q.head q.tail q.len };
}

impl<'a, T: Copy> Queue<'a, T> {
    /// An empty queue over the cells, which has room for as many records as there are cells.
    pub fn new(cells: &'a mut [T]) -> Queue<'a, T>
        ensures { result ≡ vacant (length cells.old) }
    {
        Queue {
            cells,
            head: 0,
            tail: 0,
            len: 0,
        }
    }
}

impl<'a, T: Copy> Container<T> for Queue<'a, T> {
    ghost held = { λ q. q };

    ghost keeps = { λ _ _. Unit {0} };

    ghost gives = { gives_oldest };

    ghost loses_none = { first_loses_none };

    fn len(&self) -> usize {
        self.len
    }

    fn capacity(&self) -> usize {
        self.cells.len()
    }

    fn put(&mut self, element: T) -> Result<(), Full> {
        let room = self.cells.len();
        if self.len == room {
            return Err(Full);
        }
        self.cells[self.tail] = element;
        self.tail = next_cell(self.tail, room);
        self.len += 1;
        Ok(())
    }

    // The oldest record comes.
    fn take(&mut self, out: &mut T) -> bool {
        if self.len == 0 {
            return false;
        }
        self.len -= 1;
        *out = self.cells[self.head];
        self.head = next_cell(self.head, self.cells.len());
        true
    }
}

// The next cell in a ring of `room` cells.
fn next_cell(cell: usize, room: usize) -> usize
    requires { cell < room }
    ensures bound { result < room }
    ensures next { IsCellAfter room cell 1 result }
{
    let next = cell + 1;
    if next == room { 0 } else { next }
}

#[cfg(test)]
mod tests {
    use super::*;

    // At each capacity it is filled, refuses, and gives its records back, the oldest first.
    #[test]
    fn gives_the_oldest_first(rt: HostRuntime) {
        for capacity in 0..4 {
            let mut cells = [0; 3];
            let mut queue = Queue::new(&mut cells[..capacity]);
            for record in 0..capacity {
                assert!(rt; queue.put(record).is_ok());
            }
            assert!(rt; queue.put(9) == Err(Full));
            assert_eq!(rt; queue.len(), capacity);
            assert_eq!(rt; queue.capacity(), capacity);
            let mut out = 7;
            for record in 0..capacity {
                assert!(rt; queue.take(&mut out));
                assert_eq!(rt; out, record);
            }
            out = 7;
            assert!(rt; !queue.take(&mut out));
            assert_eq!(rt; out, 7);
        }
    }

    // Filled again after each take, it goes round its cells and still gives the oldest first.
    #[test]
    fn goes_round_the_ring(rt: HostRuntime) {
        let mut cells = [0; 3];
        let mut queue = Queue::new(&mut cells);
        assert!(rt; queue.put(0).is_ok() && queue.put(1).is_ok());
        let mut out = 99;
        for record in 0..8 {
            assert!(rt; queue.put(record + 2).is_ok() && queue.put(99).is_err());
            assert!(rt; queue.take(&mut out));
            assert_eq!(rt; out, record);
        }
        assert_eq!(rt; queue.len(), 2);
    }
}
