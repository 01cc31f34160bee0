// What a fillet waits for, and why one is not made.
ghost use Rattle.std.specs.Prelude.{◌≡◌};
ghost use Rattle.fillets.specs.declared.fillet.FilletFault.TheVariants.{InBook};

use std::error::Error;
use std::fmt;
use wait_book::BookFault;

/// A fillet waits for both faces at its edge: a count, and no code.
pub const FACES: u8 = 2;

/// Why a fillet is not made.
#[derive(Clone, Copy, PartialEq, Eq, Debug)]
pub enum FilletFault {
    /// The edge is too thin for it.
    TooThin,

    /// The book refuses a call.
    InBook(BookFault),
}

impl fmt::Display for FilletFault {
    fn fmt<W: fmt::Write>(&self, f: &mut fmt::Formatter<W>) -> fmt::Result {
        match self {
            FilletFault::TooThin => f.write_str("the edge is too thin"),
            FilletFault::InBook(refusal) => write!(f, "{refusal}"),
        }
    }
}

impl Error for FilletFault {}

// Written by hand: a derive would not promise which fault comes out.
impl From<BookFault> for FilletFault {
    ghost from_gives = { λ x y. y ≡ InBook x };

    fn from(fault: BookFault) -> FilletFault {
        FilletFault::InBook(fault)
    }
}
