// The messages that a job puts into the carrier.
ghost use Rattle.std.specs.Prelude.{◌≡◌, [], ◌∷◌, length};
ghost use Rattle.carriers.specs.Meaning.{Sent};
ghost use Rattle.rows.specs.Waiting.{at};
ghost use Rattle.tables.specs.Waits.{waiters};
ghost use Rattle.exchange.specs.Rules.{message, notify_messages, grant_messages, put_on};
ghost use Rattle.detection.specs.Preconditions.{RoomFor};

use crate::lawful::LawfulTable;
use carriers::{Carrier, Kind, Message, Wait};
use tables::{Table, TwoWayTable};

/// Puts a message for which there is room. Its kind and its wait come apart, as each caller has them.
pub fn send<C: Carrier>(carrier: &mut C, kind: Kind, wait: Wait)
    requires { RoomFor (C.Carrier.carried carrier.old) (message kind wait ∷ []) }
    ensures { Sent (C.Carrier.carried carrier.old) (C.Carrier.carried carrier.new) (message kind wait ∷ []) }
{
    carrier.put(Message { kind, wait }).unwrap();
}

/// Puts a message on a wait that a record names; where it names none, no message.
pub fn send_on<C: Carrier>(carrier: &mut C, kind: Kind, wait: Option<Wait>)
    requires { RoomFor (C.Carrier.carried carrier.old) (put_on kind wait) }
    ensures { Sent (C.Carrier.carried carrier.old) (C.Carrier.carried carrier.new) (put_on kind wait) }
{
    if let Some(wait) = wait {
        send(carrier, kind, wait);
    }
}

/// Puts NOTIFY on each wait of a job, and tells how many there are.
pub fn send_notifies<T: TwoWayTable, C: Carrier>(
    table: &LawfulTable<T>,
    job: u8,
    carrier: &mut C,
) -> u16
    requires room { RoomFor (C.Carrier.carried carrier.old) (notify_messages (T.Table.rows table.now.table.now) job) }
    ensures count { result ≡ length (at (T.Table.rows table.now.table.now) job).targets }
    ensures sent { Sent (C.Carrier.carried carrier.old) (C.Carrier.carried carrier.new) (notify_messages (T.Table.rows table.now.table.now) job) }
{
    // counted as they are put: asked apart, the number would take the table a second reading
    let mut count = 0;
    for target in table.table.targets(job as usize) {
        let wait = Wait {
            waiter: job,
            target,
        };
        send(carrier, Kind::Notify, wait);
        count += 1;
    }
    count
}

/// Puts GRANT on each wait for a job, and tells how many there are. One function for this and the one above would be no plainer: its
/// contract would speak of what any iterator yields, in place of targets and waiters.
pub fn send_grants<T: TwoWayTable, C: Carrier>(
    table: &LawfulTable<T>,
    job: u8,
    carrier: &mut C,
) -> u16
    requires room { RoomFor (C.Carrier.carried carrier.old) (grant_messages (T.Table.rows table.now.table.now) job) }
    ensures count { result ≡ length (waiters (T.Table.rows table.now.table.now) job) }
    ensures sent { Sent (C.Carrier.carried carrier.old) (C.Carrier.carried carrier.new) (grant_messages (T.Table.rows table.now.table.now) job) }
{
    // counted as they are put, as above
    let mut count = 0;
    for waiter in table.table.waiters(job as usize) {
        let wait = Wait {
            waiter: waiter as u8,
            target: job,
        };
        send(carrier, Kind::Grant, wait);
        count += 1;
    }
    count
}
