// The container whose messages come in an order that its user picks.
ghost use Rattle.std.specs.Prelude.{◌≡◌, ◌<◌, length};
ghost use Rattle.containers.specs.Held.{vacant};
ghost use Rattle.carriers.specs.CountedCarriers.{picker_messages, picks_left};
ghost use Rattle.carriers.specs.Picks.{picked_place, same_picks, gives_picked, picked_loses_none};

use crate::message::Message;
use containers::{Container, Full, Stack};

/// The messages, the oldest first, and the picks that are not used up yet.
#[derive(Drop)]
pub struct Picked<'a, 'p> {
    messages: Stack<'a, Message>,
    picks: &'p [u16],
}

impl<'a, 'p> Picked<'a, 'p> {
    /// Room for as many messages as there are cells, none of which is taken, and all the picks.
    pub fn new(cells: &'a mut [Message], picks: &'p [u16]) -> Picked<'a, 'p>
        ensures messages { picker_messages result ≡ vacant (length cells.old) }
        ensures picks { picks_left result ≡ picks.now }
    {
        Picked {
            messages: Stack::new(cells),
            picks,
        }
    }
}

// The place, among so many messages, that the first of the picks names; without a pick, the place of the oldest.
fn first_place(picks: &[u16], waiting: usize) -> usize
    requires { 0 < waiting }
    ensures value { result ≡ picked_place picks.now waiting }
    ensures bound { result < waiting }
{
    picks.first().map_or(0, |pick| *pick as usize % waiting)
}

impl<'a, 'p> Container<Message> for Picked<'a, 'p> {
    ghost held = { picker_messages };

    ghost keeps = { same_picks };

    ghost gives = { gives_picked };

    ghost loses_none = { picked_loses_none };

    fn len(&self) -> usize {
        self.messages.len()
    }

    fn capacity(&self) -> usize {
        self.messages.capacity()
    }

    // No pick is used up.
    fn put(&mut self, element: Message) -> Result<(), Full> {
        self.messages.put(element)
    }

    // The message at the picked place comes, and the pick is used up; where no message waits, none is.
    fn take(&mut self, out: &mut Message) -> bool {
        let waiting = self.messages.len();
        if waiting == 0 {
            return false;
        }
        let place = first_place(self.picks, waiting);
        self.picks = self.picks.get(1..).unwrap_or(&[]);
        self.messages.take_at(place, out)
    }
}
