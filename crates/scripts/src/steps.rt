// The steps of a script: each reads a command and carries it out.
ghost use Rattle.std.specs.Prelude.{◌≡◌, ◌≤◌, ◌<◌, ◌+◌, ◌-◌, length, drop, MatchResult};
ghost use Rattle.std.specs.Result.{result_err};
ghost use Rattle.scripts.specs.Commands.{detecting};
ghost use Rattle.scripts.specs.Reading.{command_of};
ghost use Rattle.scripts.specs.Scripts.{ReadStep, ReadAll};
ghost use Rattle.histories.specs.Machines.{book_machine};
ghost use Rattle.scripts.specs.RunningScripts.{progress_of, CarriedOut, Within};
ghost use Rattle.store.specs.Plain.{plain};

use crate::answer::{DETECTION_BYTES, answer_bytes};
use crate::command::Command;
use crate::fault::ScriptFault;
use crate::place::PlaceGuard;
use crate::reader::command;
use crate::tally::{Position, Tally};
use carriers::Carrier;
use detection::{RunRecord, detect};
use store::Store;

// Runs a detection, and writes its answer behind the bytes written so far.
fn answer<C: Carrier>(
    store: &Store<'_>,
    job: u8,
    tally: &mut Tally,
    records: &mut [RunRecord],
    carrier: &mut C,
    answers: &mut [u8],
) -> Result<(), ScriptFault>
    requires { Within store.now answers.old tally.old }
    ensures done { CarriedOut (detecting job) (progress_of store.now records.old (C.Carrier.carried carrier.old) answers.old tally.old) (progress_of store.now records.new (C.Carrier.carried carrier.new) answers.new tally.new) result }
    ensures within { Within store.now answers.new tally.new }
{
    if answers.len() - tally.written < DETECTION_BYTES {
        return Err(ScriptFault::NoAnswerSpace);
    }
    let found = detect(store, job as usize, records, carrier)?;
    let end = tally.written + DETECTION_BYTES;
    answers[tally.written..end].copy_from_slice(&answer_bytes(job, found));
    tally.written = end;
    Ok(())
}

// Carries out a command; a fault leaves everything as it was.
fn carry_out<C: Carrier>(
    store: &mut Store<'_>,
    command: Command<'_>,
    tally: &mut Tally,
    records: &mut [RunRecord],
    carrier: &mut C,
    answers: &mut [u8],
) -> Result<(), ScriptFault>
    requires { Within store.old answers.old tally.old }
    ensures done { CarriedOut (command_of command.entry) (progress_of store.old records.old (C.Carrier.carried carrier.old) answers.old tally.old) (progress_of store.new records.new (C.Carrier.carried carrier.new) answers.new tally.new) result }
    ensures within { Within store.new answers.new tally.new }
    ensures mark { store.new.state.mark ≡ store.old.state.mark }
    ensures depth { length store.new.state.groups + tally.old.groups ≡ length store.old.state.groups + tally.new.groups }
{
    match command {
        Command::Open => {
            store.open()?;
            tally.groups += 1;
        }
        Command::End(ending) => {
            if tally.groups == 0 {
                return Err(ScriptFault::NoScriptGroup);
            }
            store.end_innermost(ending);
            tally.groups -= 1;
        }
        Command::Detect { job } => answer(store, job, tally, records, carrier, answers)?,
        Command::Edit(edit) => store.edit(edit)?,
    }
    Ok(())
}

// Reads the next command and carries it out; after a fault the reader stands at the command's first byte.
fn step<C: Carrier>(
    store: &mut Store<'_>,
    script: &[u8],
    place: &mut usize,
    tally: &mut Tally,
    records: &mut [RunRecord],
    carrier: &mut C,
    answers: &mut [u8],
) -> Result<(), ScriptFault>
    requires place { place.old < length script.now }
    requires within { Within store.old answers.old tally.old }
    ensures steps { ReadStep (book_machine plain) (drop place.old script.now) (progress_of store.old records.old (C.Carrier.carried carrier.old) answers.old tally.old) (result_err result) (progress_of store.new records.new (C.Carrier.carried carrier.new) answers.new tally.new) (place.new - place.old) }
    ensures place { MatchResult result (λ _. (place.old < place.new) × (place.new ≤ length script.now)) (λ _. place.new ≡ place.old) }
    ensures within { Within store.new answers.new tally.new }
    ensures mark { store.new.state.mark ≡ store.old.state.mark }
    ensures depth { length store.new.state.groups + tally.old.groups ≡ length store.old.state.groups + tally.new.groups }
{
    let mut guard = PlaceGuard {
        first: *place,
        place,
        accepted: false,
    };
    let command = command(script, guard.place)?;
    carry_out(store, command, tally, records, carrier, answers)?;
    guard.accepted = true;
    Ok(())
}

/// Carries out the commands of a script, to its end or to the first fault.
pub fn work<C: Carrier>(
    store: &mut Store<'_>,
    script: &[u8],
    position: &mut Position,
    tally: &mut Tally,
    records: &mut [RunRecord],
    carrier: &mut C,
    answers: &mut [u8],
) -> Result<(), ScriptFault>
    requires position { position.old.index ≤ position.old.offset × position.old.offset ≤ length script.now }
    requires within { Within store.old answers.old tally.old }
    ensures reads { ReadAll (book_machine plain) (drop position.old.offset script.now) position.old (progress_of store.old records.old (C.Carrier.carried carrier.old) answers.old tally.old) (result_err result) position.new (progress_of store.new records.new (C.Carrier.carried carrier.new) answers.new tally.new) }
    ensures within { Within store.new answers.new tally.new }
    ensures mark { store.new.state.mark ≡ store.old.state.mark }
    ensures depth { length store.new.state.groups + tally.old.groups ≡ length store.old.state.groups + tally.new.groups }
{
    while position.offset < script.len() {
        step(
            store,
            script,
            &mut position.offset,
            tally,
            records,
            carrier,
            answers,
        )?;
        position.index += 1;
    }
    Ok(())
}
