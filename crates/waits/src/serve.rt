// From the input to the output.
ghost use Rattle.std.specs.Prelude.{◌≡◌, is_ok, IfOk, IfErr};
ghost use Rattle.waits.specs.Service.{Serves};

use crate::input::read_up_to;
use crate::run::{PROGRAM_ANSWERS, run};
use std::io;
use std::io::{Read, Write};
use wait_book::{Answer, FinishedScript, SCRIPT_MAX, StoppedScript};

// One byte more than a script can have, so that one that is too long is seen to be so.
const INPUT_MAX: usize = SCRIPT_MAX + 1;

/// What came of a script, and of writing its bytes.
#[derive(Drop)]
pub struct Served {
    /// How the script ended.
    pub outcome: Result<FinishedScript, StoppedScript>,

    /// Whether its bytes could be written.
    pub printed: io::Result<()>,
}

/// Runs the script that the input holds, and writes to the output what it has written. Where the input can't be read, nothing is run.
pub fn serve<R: Read, W: Write>(input: &mut R, output: &mut W) -> io::Result<Served>
    ensures serves { IfOk result (λ s. Serves (R.remaining input.old) s.outcome (is_ok s.printed) (W.contents output.old) (W.contents output.new)) }
    ensures unread { IfErr result (λ _. output.new ≡ output.old) }
{
    let mut script = [0; INPUT_MAX];
    let count = read_up_to(input, &mut script)?;
    let mut answers = [0; PROGRAM_ANSWERS];
    let outcome = run(&script[..count], &mut answers);
    // written after a fault too: what finished detections wrote stays
    let written = Answer::Ran(outcome).written();
    let printed = output.write_all(&answers[..written]);
    Ok(Served { outcome, printed })
}
