// What ends a script.
ghost use Rattle.std.specs.Prelude.{◌≡◌};
ghost use Rattle.scripts.specs.ScriptFaults.{refusal_of};
ghost use Rattle.scripts.specs.declared.fault.ScriptFault.{ScriptFault};
ghost use Rattle.scripts.specs.declared.fault.ScriptFault.TheVariants.{OfBook, OfDetection};

use detection::DetectionFault;
use std::error::Error;
use std::fmt;
use store::BookFault;

/// The faults of a script; those of the book and of the detection are carried whole.
#[derive(Clone, Copy, Drop, PartialEq, Eq, Debug)]
pub enum ScriptFault {
    /// The script has more than 8,192 bytes; it is not begun.
    TooLong,

    /// A command's first byte is none of the six letters.
    UnknownLetter,

    /// The script ends inside a command.
    CutOff,

    /// A command ends a group, and the script has none open.
    NoScriptGroup,

    /// Fewer than four answer bytes are left for a detection.
    NoAnswerSpace,

    /// The book refuses a call.
    OfBook(BookFault),

    /// A detection is stopped.
    OfDetection(DetectionFault),
}

impl fmt::Display for ScriptFault {
    fn fmt<W: fmt::Write>(&self, f: &mut fmt::Formatter<W>) -> fmt::Result {
        match self {
            ScriptFault::TooLong => f.write_str("the script is too long"),
            ScriptFault::UnknownLetter => f.write_str("no command has this letter"),
            ScriptFault::CutOff => f.write_str("the script ends inside a command"),
            ScriptFault::NoScriptGroup => f.write_str("no group of the script is open"),
            ScriptFault::NoAnswerSpace => f.write_str("no space is left for the answer"),
            ScriptFault::OfBook(refusal) => write!(f, "{refusal}"),
            ScriptFault::OfDetection(refusal) => write!(f, "{refusal}"),
        }
    }
}

impl Error for ScriptFault {}

impl ScriptFault {
    /// The fault's number, which the rules fix: from 13 to 17; or that of the book's or the detection's refusal.
    pub fn number(&self) -> u8
        ensures { result ≡ (refusal_of self.now).number }
    {
        match self {
            ScriptFault::TooLong => 13,
            ScriptFault::UnknownLetter => 14,
            ScriptFault::CutOff => 15,
            ScriptFault::NoScriptGroup => 16,
            ScriptFault::NoAnswerSpace => 17,
            ScriptFault::OfBook(fault) => fault.number(),
            ScriptFault::OfDetection(fault) => fault.number(),
        }
    }

    /// The value that it carries: the place of the first wrong target, from 0.
    pub fn value(&self) -> Option<usize>
        ensures { result ≡ (refusal_of self.now).value }
    {
        match self {
            ScriptFault::OfBook(fault) => fault.value(),
            _ => None,
        }
    }

    /// Whose fault it is: 0 the script's, 1 the book's, 2 the detection's. No other fault has this layer, number and value.
    pub fn layer(&self) -> u8
        ensures value { result ≡ (refusal_of self.now).layer }
        ensures own { (other : ScriptFault) → refusal_of other ≡ refusal_of self.now → other ≡ self.now }
    {
        match self {
            ScriptFault::OfBook(_) => 1,
            ScriptFault::OfDetection(_) => 2,
            _ => 0,
        }
    }
}

// Written by hand, as the next one is: a derive would not promise which fault comes out.
impl From<BookFault> for ScriptFault {
    ghost from_gives = { λ x y. y ≡ OfBook x };

    fn from(fault: BookFault) -> ScriptFault {
        ScriptFault::OfBook(fault)
    }
}

impl From<DetectionFault> for ScriptFault {
    ghost from_gives = { λ x y. y ≡ OfDetection x };

    fn from(fault: DetectionFault) -> ScriptFault {
        ScriptFault::OfDetection(fault)
    }
}

/// A script that a fault has ended.
#[derive(Clone, Copy, Drop, PartialEq, Eq, Debug)]
pub struct StoppedScript {
    /// The fault.
    pub fault: ScriptFault,

    /// Where the command that it stopped begins, in bytes.
    pub offset: usize,

    /// Which command this is, from 0.
    pub index: usize,

    /// How many answer bytes stay written.
    pub written: usize,
}

/// One line: number, meaning, layer, offset, index, and the value if there is one.
impl fmt::Display for StoppedScript {
    fn fmt<W: fmt::Write>(&self, f: &mut fmt::Formatter<W>) -> fmt::Result {
        let StoppedScript {
            fault,
            offset,
            index,
            written: _,
        } = *self;
        let number = fault.number();
        let layer = fault.layer();
        let name = layer_name(fault);
        write!(
            f,
            "refusal {number}, {fault}; layer {layer}, {name}; offset {offset}; index {index}"
        )?;
        if let Some(value) = fault.value() {
            write!(f, "; value {value}")?;
        }
        Ok(())
    }
}

impl Error for StoppedScript {}

// Whose fault it is.
fn layer_name(fault: ScriptFault) -> &'static str {
    match fault {
        ScriptFault::OfBook(_) => "book",
        ScriptFault::OfDetection(_) => "detection",
        _ => "script",
    }
}

/// A script that came to its end.
#[derive(Clone, Copy, Drop, PartialEq, Eq, Debug)]
pub struct FinishedScript {
    /// How many commands were carried out.
    pub commands: usize,

    /// How many groups were cancelled at the end.
    pub cancelled: usize,

    /// How many answer bytes were written.
    pub written: usize,
}
