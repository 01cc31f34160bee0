// What all the tests share: what is lent to a book, what is seen of it, and how a group ends.
ghost use Rattle.std.specs.Prelude.{◌≡◌, ◌<◌, ◌-◌, length};

use book::{Book, BookFault, PlainRow, Table, Ticket, UndoRecord};
use carriers::{Kind, Message, Wait};
use detection::RunRecord;

/// The mark of a book, where a test has one book.
pub const MARK: u16 = 7;

/// What lent bytes hold before a call, and a lent record as its number of GRANTs.
pub const UNTOUCHED: u8 = 99;

/// A job's row: its need, and its targets.
pub type Row<'a> = (u8, &'a [u8]);

/// The row of an active job.
pub const ACTIVE: Row<'static> = (0, &[]);

/// Memory for a trail of N undo records.
pub fn trail<const N: usize>() -> [UndoRecord<PlainRow>; N] {
    [UndoRecord {
        job: 0,
        row: PlainRow::idle(),
    }; N]
}

/// Memory for a carrier of N messages.
pub fn blank_cells<const N: usize>() -> [Message; N] {
    [blank_message(); N]
}

/// A message to fill memory with; no book has its wait.
pub fn blank_message() -> Message {
    Message {
        kind: Kind::Notify,
        wait: Wait {
            waiter: 0,
            target: 0,
        },
    }
}

/// Records that no detection has touched.
pub fn untouched<const N: usize>() -> [RunRecord; N] {
    [RunRecord {
        granted: UNTOUCHED as u16,
        ..RunRecord::blank()
    }; N]
}

/// No detection has touched this record.
pub fn is_untouched(record: &RunRecord) -> bool {
    record.granted == UNTOUCHED as u16
}

/// The number of a refusal, as docs/RULES.md numbers them, and 0 where a call is accepted: a table of cases has one column for both.
pub fn number_of(answer: Result<(), BookFault>) -> u8 {
    answer.map_or_else(|fault| fault.number(), |()| 0)
}

/// Keeps or cancels the innermost group, whose ticket this is. Tables of cases say which by yes or no: two pointers in their place would
/// have to be shown callable in each test.
pub fn end(book: &mut Book, ticket: Ticket, keeping: bool)
    requires mark { ticket.mark ≡ book.old.state.mark }
    requires depth { ticket.depth ≡ length book.old.state.groups }
    requires open { 0 < ticket.depth }
    ensures mark { book.new.state.mark ≡ book.old.state.mark }
    ensures depth { length book.new.state.groups ≡ length book.old.state.groups - 1 }
{
    if keeping {
        book.keep(ticket).unwrap();
    } else {
        book.cancel(ticket).unwrap();
    }
}

/// A job's row has this need, and these targets and no others.
pub fn is_row(book: &Book, job: usize, need: u8, targets: &[u8]) -> bool {
    book.need(job) == need
        && book.targets(job).eq(targets.iter().copied())
        && book.target_count(job) == targets.len()
        && book.target(job, targets.len()).is_none()
}
