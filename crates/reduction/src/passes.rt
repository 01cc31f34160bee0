// The reduction: jobs are loosened one after the other, until no more can be.
ghost use Rattle.std.specs.Prelude.{◌≡◌, true, length, MatchResult};
ghost use Rattle.reduction.specs.Work.{IsDecided, AllWait};
ghost use Rattle.reduction.specs.Faults.{refusal_number};
ghost use Rattle.reduction.specs.Reduced.{stop, Reduced};

use crate::fault::ReductionFault;
use crate::marking::Marking;
use crate::marks::STUCK;
use containers::{Container, Queue};
use tables::{INDEX_WORDS, Indexed, JOBS_MAX, Table};

/// Writes 0 for each loosened job of a table, which lawful grants can make active, and 1 for each other, which is stuck, into the first bytes,
/// by the number of the job; those behind stay as they are. Refused with `TooShort`, 10, where there are fewer bytes than jobs, and then all
/// bytes stay as they are.
pub fn reduce<T: Table>(table: &T, bytes: &mut [u8]) -> Result<(), ReductionFault>
    ensures refused { refusal_number result ≡ stop (length (T.Table.rows table.now)) (length bytes.old) }
    ensures after { MatchResult result (λ _. Reduced (T.Table.rows table.now) bytes.old bytes.new) (λ _. bytes.new ≡ bytes.old) }
{
    let jobs = table.jobs();
    if bytes.len() < jobs {
        return Err(ReductionFault::TooShort);
    }
    // then none can be loosened, whatever they wait for
    if none_is_active(table) {
        bytes[..jobs].fill(STUCK);
        return Ok(());
    }
    let mut words = [0; INDEX_WORDS];
    let marks = marks_of(&Indexed::new(table, &mut words));
    bytes[..jobs].copy_from_slice(&marks[..jobs]);
    Ok(())
}

// Whether no job is active. A loop: it is nearly all that a reduction of stuck jobs does, and a chain takes longer.
fn none_is_active<T: Table>(table: &T) -> bool
    ensures { result ≡ true → AllWait (T.Table.rows table.now) (length (T.Table.rows table.now)) }
{
    for job in 0..table.jobs() {
        if table.need(job) == 0 {
            return false;
        }
    }
    true
}

// The marks of a table's jobs, when no more can be loosened.
fn marks_of<T: Table>(table: &Indexed<'_, T>) -> [u8; JOBS_MAX]
    ensures { IsDecided (T.Table.rows table.now.table.now) result }
{
    let mut cells = [0; JOBS_MAX];
    let mut marking = Marking::begin(table, Queue::new(&mut cells));
    let mut job = 0;
    while marking.queue.take(&mut job) {
        marking.mark_waiters(job as usize);
    }
    marking.marks
}
