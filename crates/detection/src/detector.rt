// The detection: a run of the exchange from one job, over any table and any carrier.
ghost use Rattle.std.specs.Prelude.{◌≡◌, ◌*◌, ◌<◌, ◌≤◌, length, IfErr};
ghost use Rattle.tables.specs.Waits.{waits as waits_of};
ghost use Rattle.exchange.specs.Limits.{capacity_per_wait};
ghost use Rattle.detection.specs.Detected.{Detects, IsFinishedRun, verdict_of};

use crate::fault::DetectionFault;
use crate::lawful::LawfulTable;
use crate::reactions::{deliver, spread};
use crate::verdict::{Detection, Verdict};
use carriers::Carrier;
use exchange::RunRecord;
use tables::{INDEX_WORDS, Indexed, Table, TwoWayTable};

/// How many messages a carrier must have room for, for each wait.
pub const CAPACITY_PER_WAIT: usize = 2;

/// Whether the initiator is stuck, told by a run of the exchange: no list of lawful grants makes it active. The records and the
/// carrier are lent: of the records the first are used, one for each job, whatever they hold, and the others stay as they are; after a run no
/// message waits in the carrier.
///
/// Stopped by the first that holds, and then records and carrier stay as they are: the initiator is no job (`NoSuchJob`, 1), there are fewer
/// records than jobs (`TooFewRecords`, 10), messages wait in the carrier (`MessagesWait`, 11), or it has room for fewer than two messages for
/// each wait (`CarrierTooSmall`, 12).
pub fn detect<T: TwoWayTable, C: Carrier>(
    table: &T,
    initiator: usize,
    records: &mut [RunRecord],
    carrier: &mut C,
) -> Result<Detection, DetectionFault>
    ensures detects { Detects (T.Table.rows table.now) initiator records.old records.new (C.Carrier.carried carrier.old) (C.Carrier.carried carrier.new) result }
    ensures unchanged { IfErr result (λ _. carrier.new ≡ carrier.old) }
{
    let jobs = table.jobs();
    if initiator >= jobs {
        return Err(DetectionFault::NoSuchJob);
    }
    if records.len() < jobs {
        return Err(DetectionFault::TooFewRecords);
    }
    if carrier.waiting() > 0 {
        return Err(DetectionFault::MessagesWait);
    }
    // the pass that counts the waits finds who waits for whom as well
    let mut words = [0; INDEX_WORDS];
    let indexed = Indexed::new(table, &mut words);
    if carrier.capacity() < CAPACITY_PER_WAIT * indexed.wait_count() {
        return Err(DetectionFault::CarrierTooSmall);
    }
    let table = LawfulTable { table: &indexed };
    Ok(run(&table, initiator as u8, &mut records[..jobs], carrier))
}

// The run: the initiator spreads, and messages are delivered until none waits.
fn run<T: TwoWayTable, C: Carrier>(
    table: &LawfulTable<T>,
    initiator: u8,
    records: &mut [RunRecord],
    carrier: &mut C,
) -> Detection
    requires job { initiator < length (T.Table.rows table.now.table.now) }
    requires records { length records.old ≡ length (T.Table.rows table.now.table.now) }
    requires waiting { length (C.Carrier.carried carrier.old).waiting ≡ 0 }
    requires room { capacity_per_wait * waits_of (T.Table.rows table.now.table.now) ≤ (C.Carrier.carried carrier.old).capacity }
    ensures { IsFinishedRun (T.Table.rows table.now.table.now) initiator records.old records.new (C.Carrier.carried carrier.old) (C.Carrier.carried carrier.new) result }
{
    let before = carrier.handed_out();
    records.fill(RunRecord::blank());
    spread(table, initiator, &mut records[initiator as usize], carrier);
    while let Some(message) = carrier.take() {
        deliver(table, message, records, carrier);
    }
    Detection {
        verdict: verdict_of(&records[initiator as usize]),
        deliveries: carrier.handed_out().wrapping_sub(before),
    }
}

// The initiator is stuck exactly if it is not free when the run is over.
fn verdict_of(own: &RunRecord) -> Verdict
    ensures { result ≡ verdict_of own.now }
{
    if own.free {
        Verdict::Free
    } else {
        Verdict::Stuck
    }
}
