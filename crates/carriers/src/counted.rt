// A carrier made of a container of messages, whatever the container's order, and a count of those handed out.
ghost use Rattle.std.specs.Prelude.{◌≡◌, length, is_ok, if◌then◌else◌, MatchOption};
ghost use Rattle.containers.specs.Held.{with_last};
ghost use Rattle.carriers.specs.Faults.{refusal_number};
ghost use Rattle.carriers.specs.Meaning.{Put, Took};
ghost use Rattle.carriers.specs.CountedCarriers.{carried_from, carried_by, held_carried, container, picker_messages, picks_left, new_carrier};

use crate::carrier::{Carrier, CarrierFull};
use crate::message::Message;
use crate::picked::Picked;
use containers::{Container, Queue, Stack};

/// A carrier over a container: the messages that wait, and how many were handed out, modulo 2^32.
#[derive(Drop)]
pub struct Counted<C> {
    messages: C,
    handed: u32,
    // What lies in the place that is lent for a message, before one is taken into it.
    blank: Message,
}

/// The carrier that hands out the oldest message.
pub type QueueCarrier<'a> = Counted<Queue<'a, Message>>;

/// The carrier that hands out the newest message.
pub type StackCarrier<'a> = Counted<Stack<'a, Message>>;

/// The carrier that hands out the messages in an order that its user picks; once the picks are used up, the oldest message.
pub type Picker<'a, 'p> = Counted<Picked<'a, 'p>>;

impl<C: Container<Message>> Counted<C> {
    /// The carrier in which the container's messages wait; it has handed out none.
    pub fn over(messages: C) -> Counted<C>
        ensures messages { container result ≡ messages }
        ensures carried { carried_by C.Container.held result ≡ carried_from (C.Container.held messages) 0 }
    {
        Counted {
            messages,
            handed: 0,
            blank: Message::default(),
        }
    }
}

// Each of the three names has a constructor of its own: no plainer as one, since what the memory is made into differs.
impl<'a> QueueCarrier<'a> {
    /// A carrier in which nothing waits, with room for as many messages as there are cells; it has handed out none.
    pub fn new(cells: &'a mut [Message]) -> QueueCarrier<'a>
        ensures { held_carried result ≡ new_carrier (length cells.old) }
    {
        Counted::over(Queue::new(cells))
    }
}

impl<'a> StackCarrier<'a> {
    /// A carrier in which nothing waits, with room for as many messages as there are cells; it has handed out none.
    pub fn new(cells: &'a mut [Message]) -> StackCarrier<'a>
        ensures { held_carried result ≡ new_carrier (length cells.old) }
    {
        Counted::over(Stack::new(cells))
    }
}

impl<'a, 'p> Picker<'a, 'p> {
    /// A carrier in which nothing waits, with room for as many messages as there are cells; it has handed out none, and used
    /// up none of the picks.
    pub fn new(cells: &'a mut [Message], picks: &'p [u16]) -> Picker<'a, 'p>
        ensures carried { carried_by picker_messages result ≡ new_carrier (length cells.old) }
        ensures picks { picks_left (container result) ≡ picks.now }
    {
        Counted::over(Picked::new(cells, picks))
    }
}

impl<C: Container<Message>> Carrier for Counted<C> {
    ghost carried = { carried_by C.Container.held };

    // The message comes after those that wait.
    fn put(&mut self, message: Message) -> Result<(), CarrierFull>
        ensures put { Put (carried_by C.Container.held self.old) (carried_by C.Container.held self.new) message (refusal_number result) }
        ensures last { C.Container.held (container self.new) ≡ (if is_ok result then with_last (C.Container.held (container self.old)) message else C.Container.held (container self.old)) }
        ensures beside { C.Container.keeps (container self.old) (container self.new) }
    {
        self.messages.put(message)?;
        Ok(())
    }

    /// The message comes that is next in the container's order; where none waits, the container stays as it is.
    fn take(&mut self) -> Option<Message>
        ensures took { Took (carried_by C.Container.held self.old) (carried_by C.Container.held self.new) result }
        ensures order { MatchOption result (container self.new ≡ container self.old) (λ message. C.Container.gives (container self.old) message (container self.new)) }
    {
        // made here, field by field, the place would be read byte by byte
        let mut message = self.blank;
        if !self.messages.take(&mut message) {
            return None;
        }
        self.handed = self.handed.wrapping_add(1);
        Some(message)
    }

    fn waiting(&self) -> usize {
        self.messages.len()
    }

    fn capacity(&self) -> usize {
        self.messages.capacity()
    }

    fn handed_out(&self) -> u32 {
        self.handed
    }
}
