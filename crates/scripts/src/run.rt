// Running a script.
ghost use Rattle.std.specs.Prelude.{◌≡◌, ◌≤◌, ◌-◌, length};
ghost use Rattle.scripts.specs.Scripts.{cancel_groups as cancelling};
ghost use Rattle.scripts.specs.ScriptCalls.{CountsAs};
ghost use Rattle.scripts.specs.ScriptRuns.{ScriptStep, script_written};
ghost use Rattle.scripts.specs.Workspace.{workspace};
ghost use Rattle.histories.specs.Machines.{book_machine};
ghost use Rattle.store.specs.Plain.{plain};
ghost use Rattle.histories.specs.CallSteps.{SameGroups};

use crate::fault::{FinishedScript, ScriptFault, StoppedScript};
use crate::steps::work;
use crate::tally::{Position, Tally};
use carriers::Carrier;
use detection::RunRecord;
use groups::Ending;
use store::Store;

/// How many bytes a script has at most: 8,192.
pub const SCRIPT_MAX: usize = 8192;

/// Runs a script: its commands one after the other, to its end or to the first fault. Detections use the records and the carrier, and
/// write four answer bytes each, one behind the other. At the end, and after a fault, the groups that the script has left open are
/// cancelled, the innermost first; what was done outside of them stays. `StoppedScript` tells the fault, which command it stopped, and
/// where this begins; a script of more than 8,192 bytes is not begun. For the store a script is the calls that it counts as.
pub fn run_script<C: Carrier>(
    store: &mut Store<'_>,
    script: &[u8],
    records: &mut [RunRecord],
    carrier: &mut C,
    answers: &mut [u8],
) -> Result<FinishedScript, StoppedScript>
    ensures ran { ScriptStep store.old (workspace records.old (C.Carrier.carried carrier.old) answers.old) script.now result store.new (workspace records.new (C.Carrier.carried carrier.new) answers.new) }
    ensures counts { CountsAs (book_machine plain) store.old script.now result store.new }
    ensures written { script_written result ≤ length answers.new }
    ensures groups { SameGroups store.old store.new }
{
    if script.len() > SCRIPT_MAX {
        return Err(StoppedScript {
            fault: ScriptFault::TooLong,
            offset: 0,
            index: 0,
            written: 0,
        });
    }
    let mut position = Position {
        offset: 0,
        index: 0,
    };
    let mut tally = Tally {
        written: 0,
        groups: 0,
    };
    let worked = work(
        store,
        script,
        &mut position,
        &mut tally,
        records,
        carrier,
        answers,
    );
    cancel_groups(store, tally.groups);
    match worked {
        Ok(()) => Ok(FinishedScript {
            commands: position.index,
            cancelled: tally.groups,
            written: tally.written,
        }),
        Err(fault) => Err(StoppedScript {
            fault,
            offset: position.offset,
            index: position.index,
            written: tally.written,
        }),
    }
}

// Cancels the innermost groups, so many.
fn cancel_groups(store: &mut Store<'_>, groups: usize)
    requires { groups ≤ length store.old.state.groups }
    ensures value { store.new ≡ cancelling (book_machine plain) groups store.old }
    ensures mark { store.new.state.mark ≡ store.old.state.mark }
    ensures depth { length store.new.state.groups ≡ length store.old.state.groups - groups }
{
    for _ in 0..groups {
        store.end_innermost(Ending::Cancel);
    }
}
