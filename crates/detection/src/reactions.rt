// What a job does when it lets go, when it spreads, and when a message reaches it.
ghost use Rattle.std.specs.Prelude.{◌≡◌, ◌<◌, length, slice_set};
ghost use Rattle.carriers.specs.Meaning.{Sent};
ghost use Rattle.carriers.specs.Messages.{receiver};
ghost use Rattle.exchange.specs.Rules.{let_go, close_notice, spread as spreading, react as reacting};
ghost use Rattle.exchange.specs.Runs.{reaction};
ghost use Rattle.exchange.specs.Bounds.{IsDue, IsExpected};
ghost use Rattle.detection.specs.Preconditions.{RoomFor};

use crate::lawful::LawfulTable;
use crate::puts::{send, send_grants, send_notifies, send_on};
use carriers::{Carrier, Kind, Message};
use exchange::RunRecord;
use tables::{Table, TwoWayTable};

// A job lets go: it becomes free, and puts GRANT on each wait for it.
fn release<T: TwoWayTable, C: Carrier>(
    table: &LawfulTable<T>,
    job: u8,
    own: &mut RunRecord,
    carrier: &mut C,
)
    requires room { RoomFor (C.Carrier.carried carrier.old) (let_go (T.Table.rows table.now.table.now) job own.old).puts }
    ensures own { own.new ≡ (let_go (T.Table.rows table.now.table.now) job own.old).becomes }
    ensures sent { Sent (C.Carrier.carried carrier.old) (C.Carrier.carried carrier.new) (let_go (T.Table.rows table.now.table.now) job own.old).puts }
{
    own.free = true;
    own.acks_due = send_grants(table, job, carrier);
}

/// A job spreads: it becomes notified, and puts NOTIFY on each of its waits; one that needs none by the table then lets go. Inlined, so that
/// a queue's ends stay in registers from delivery to delivery.
#[inline(always)]
pub fn spread<T: TwoWayTable, C: Carrier>(
    table: &LawfulTable<T>,
    job: u8,
    own: &mut RunRecord,
    carrier: &mut C,
)
    requires { RoomFor (C.Carrier.carried carrier.old) (spreading (T.Table.rows table.now.table.now) job own.old).puts }
    ensures own { own.new ≡ (spreading (T.Table.rows table.now.table.now) job own.old).becomes }
    ensures sent { Sent (C.Carrier.carried carrier.old) (C.Carrier.carried carrier.new) (spreading (T.Table.rows table.now.table.now) job own.old).puts }
{
    own.notified = true;
    own.dones_due = send_notifies(table, job, carrier);
    if table.table.need(job as usize) == 0 {
        release(table, job, own, carrier);
    }
}

// A job closes its notice: it puts DONE on the wait on which it was notified. The initiator was notified on none.
fn close_notice<C: Carrier>(own: &RunRecord, carrier: &mut C)
    requires { RoomFor (C.Carrier.carried carrier.old) (close_notice own.now) }
    ensures { Sent (C.Carrier.carried carrier.old) (C.Carrier.carried carrier.new) (close_notice own.now) }
{
    send_on(carrier, Kind::Done, own.notified_by);
}

// What the receiver of a message does, by its own record and the kind.
fn react<T: TwoWayTable, C: Carrier>(
    table: &LawfulTable<T>,
    message: Message,
    own: &mut RunRecord,
    carrier: &mut C,
)
    requires due { IsDue (T.Table.rows table.now.table.now) message.kind message.wait own.old }
    requires room { RoomFor (C.Carrier.carried carrier.old) (reacting (T.Table.rows table.now.table.now) message.kind message.wait own.old).puts }
    ensures own { own.new ≡ (reacting (T.Table.rows table.now.table.now) message.kind message.wait own.old).becomes }
    ensures sent { Sent (C.Carrier.carried carrier.old) (C.Carrier.carried carrier.new) (reacting (T.Table.rows table.now.table.now) message.kind message.wait own.old).puts }
{
    let wait = message.wait;
    let job = message.receiver();
    match (message.kind, own.notified, own.free) {
        (Kind::Notify, true, _) => send(carrier, Kind::Done, wait),
        (Kind::Notify, false, _) => {
            own.notified_by = Some(wait);
            spread(table, job, own, carrier);
        }
        (Kind::Done, _, _) => {
            own.dones_due -= 1;
            if own.dones_due == 0 {
                close_notice(own, carrier);
            }
        }
        (Kind::Grant, _, false) if own.granted + 1 == table.table.need(job as usize) as u16 => {
            own.granted += 1;
            own.freed_by = Some(wait);
            release(table, job, own, carrier);
            let due = own.acks_due;
            if due == 0 {
                send(carrier, Kind::Ack, wait);
            }
        }
        (Kind::Grant, _, _) => {
            own.granted += 1;
            send(carrier, Kind::Ack, wait);
        }
        (Kind::Ack, _, _) => {
            own.acks_due -= 1;
            if own.acks_due == 0 {
                if table.table.need(job as usize) == 0 {
                    close_notice(own, carrier);
                } else {
                    send_on(carrier, Kind::Ack, own.freed_by);
                }
            }
        }
    }
}

/// Delivers a message: its receiver reacts, by its record in the list.
pub fn deliver<T: TwoWayTable, C: Carrier>(
    table: &LawfulTable<T>,
    message: Message,
    records: &mut [RunRecord],
    carrier: &mut C,
)
    requires records { length records.old ≡ length (T.Table.rows table.now.table.now) }
    requires awaited { IsExpected (T.Table.rows table.now.table.now) records.old message }
    requires room { RoomFor (C.Carrier.carried carrier.old) (reaction (T.Table.rows table.now.table.now) records.old message).puts }
    ensures records { records.new ≡ slice_set records.old (receiver message) (reaction (T.Table.rows table.now.table.now) records.old message).becomes }
    ensures sent { Sent (C.Carrier.carried carrier.old) (C.Carrier.carried carrier.new) (reaction (T.Table.rows table.now.table.now) records.old message).puts }
{
    let job = message.receiver() as usize;
    react(table, message, &mut records[job], carrier);
}
