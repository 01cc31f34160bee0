// What carries messages, in an order of its own.
ghost use Rattle.std.specs.Prelude.{◌≡◌, ◌≤◌, length};
ghost use Rattle.carriers.specs.Faults.{number, refusal_number};
ghost use Rattle.carriers.specs.Meaning.{Put, Took};
ghost use Rattle.carriers.specs.Carriers.{Carried};

use crate::message::Message;
use containers::Full;
use std::error::Error;
use std::fmt;

const CARRIER_FULL: u8 = 12;

/// The refusal of a put: as many messages wait as the carrier's capacity.
#[derive(Clone, Copy, Drop, PartialEq, Eq, Debug)]
pub struct CarrierFull;

impl CarrierFull {
    /// The refusal's number, which the rules fix: 12.
    pub fn number(&self) -> u8
        ensures { result ≡ number self.now }
    {
        CARRIER_FULL
    }
}

impl fmt::Display for CarrierFull {
    fn fmt<W: fmt::Write>(&self, f: &mut fmt::Formatter<W>) -> fmt::Result {
        f.write_str("the carrier is full")
    }
}

impl Error for CarrierFull {}

// A full container makes a full carrier.
impl From<Full> for CarrierFull {
    fn from(_full: Full) -> CarrierFull {
        CarrierFull
    }
}

/// A carrier holds messages that wait, as many as its capacity, and hands them out one by one. Which message comes next is
/// free: whoever knows no more than this trait cannot lean on an order.
pub trait Carrier {
    // The messages that wait, the capacity, and how many were handed out, modulo 2^32.
    ghost carried: { Self → Carried };

    /// Adds the message to those that wait; a full carrier refuses it with [`CarrierFull`], number 12, and stays as it is.
    fn put(&mut self, message: Message) -> Result<(), CarrierFull>
        ensures put { Put (carried self.old) (carried self.new) message (refusal_number result) };

    /// Hands out one of the waiting messages; where none waits there is none, and the carrier stays as it is.
    fn take(&mut self) -> Option<Message>
        ensures took { Took (carried self.old) (carried self.new) result };

    /// How many messages wait, from 0 to the capacity.
    fn waiting(&self) -> usize
        ensures value { result ≡ length (carried self.now).waiting }
        ensures bound { result ≤ (carried self.now).capacity };

    /// How many messages can wait.
    fn capacity(&self) -> usize
        ensures { result ≡ (carried self.now).capacity };

    /// How many messages it has handed out, modulo 2^32.
    fn handed_out(&self) -> u32
        ensures { result ≡ (carried self.now).handed };
}
