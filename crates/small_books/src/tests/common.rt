// The small books as rows, and as books.
ghost use Rattle.book.specs.CallSteps.{SameGroups};

use book::{Book, PlainRow, UndoRecord};
use carriers::{Kind, Message, Wait};
use std::process::Abort;

/// The most jobs that one of the small books has.
pub const JOBS: usize = 4;

/// Room for two messages on each wait of the largest of them.
pub const CELLS: usize = 10;

/// A job's row: its need, and its targets.
pub type Row<'a> = (u8, &'a [u8]);

/// The row of an active job.
pub const ACTIVE: Row<'static> = (0, &[]);

/// One job, which is active.
pub const ONE_JOB: &[Row<'static>] = &[ACTIVE];

/// 0 waits for 1.
pub const B2: &[Row<'static>] = &[(1, &[1]), ACTIVE];

/// Two jobs wait for each other.
pub const B3: &[Row<'static>] = &[(1, &[1]), (1, &[0])];

/// 0 waits for one of 1 and 2, and 1 for 0.
pub const B4: &[Row<'static>] = &[(1, &[1, 2]), (1, &[0]), ACTIVE];

/// 0 waits for both of 1 and 2, and 1 for 0.
pub const B5: &[Row<'static>] = &[(2, &[1, 2]), (1, &[0]), ACTIVE];

/// 0 and 2 wait for 1.
pub const B6: &[Row<'static>] = &[(1, &[1]), ACTIVE, (1, &[1])];

/// 0 waits for three, of which 1 waits for 2, and 3 for 0.
pub const B7: &[Row<'static>] = &[(3, &[1, 2, 3]), (1, &[2]), ACTIVE, (1, &[0])];

/// A message to fill memory with.
pub fn empty_message() -> Message {
    Message {
        kind: Kind::Notify,
        wait: Wait {
            waiter: 0,
            target: 0,
        },
    }
}

/// Memory for a trail of one undo record.
pub fn trail() -> [UndoRecord<PlainRow>; 1] {
    [UndoRecord {
        job: 0,
        row: PlainRow::idle(),
    }; 1]
}

/// Makes the requests of the rows; the blocked ones among their jobs were active.
pub fn request_each(rt: &impl Abort, book: &mut Book, rows: &[Row])
    ensures groups { SameGroups book.old book.new }
{
    for (job, (need, targets)) in rows.iter().enumerate() {
        if *need > 0 {
            assert!(rt; book.request(job, *need, targets).is_ok());
        }
    }
}
