// What can end the program early.
use std::error::Error;
use std::{fmt, io};
use wait_book::StoppedScript;

/// What can end the program early.
#[derive(Drop)]
pub enum Trouble {
    /// The script can't be read.
    Input(io::Error),

    /// Its bytes can't be written.
    Output(io::Error),

    /// A fault has stopped it.
    Stopped(StoppedScript),
}

impl fmt::Display for Trouble {
    fn fmt<W: fmt::Write>(&self, f: &mut fmt::Formatter<W>) -> fmt::Result {
        match self {
            Trouble::Input(error) => write!(f, "the script can't be read: {error}"),
            Trouble::Output(error) => write!(f, "the answers can't be written: {error}"),
            Trouble::Stopped(stopped) => write!(f, "{stopped}"),
        }
    }
}

// The same line, since `main` prints its error by this form.
impl fmt::Debug for Trouble {
    fn fmt<W: fmt::Write>(&self, f: &mut fmt::Formatter<W>) -> fmt::Result {
        write!(f, "{self}")
    }
}

impl Error for Trouble {}
