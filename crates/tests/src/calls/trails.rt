// How many edits the groups hold.
ghost use Rattle.std.specs.Prelude.{◌≡◌, length};
ghost use Rattle.book.specs.CallSteps.{SameGroups};

use crate::common::*;
use book::{Book, Table};

// An edit of job 0: it waits for job 1, or no longer waits.
fn turned(book: &mut Book) -> u8
    ensures groups { SameGroups book.old book.new }
{
    if book.need(0) == 0 {
        number_of(book.request(0, 1, &[1]))
    } else {
        number_of(book.grant(1, 0))
    }
}

// Outside of groups every edit is taken. A group takes as many as there are records, and its end frees them.
#[test]
fn group_takes_as_many_edits_as_records(rt: HostRuntime) {
    for records in 0..3 {
        let mut memory = trail::<2>();
        let mut book = Book::new(2, MARK, &mut memory[..records]);
        for keeping in [true, false, true] {
            for _ in 0..3 {
                assert_eq!(rt; turned(&mut book), 0);
            }
            let Ok(ticket) = book.open() else {
                panic!(rt; "no group was opened");
            };
            // asserted after the group has ended, since its ticket must be handed back on every way out
            let mut taken = true;
            for _ in 0..records {
                taken = turned(&mut book) == 0 && taken;
            }
            let waits = book.waits_for(0, 1);
            let refused = turned(&mut book);
            let same = book.waits_for(0, 1) == waits;
            end(&mut book, ticket, keeping);
            assert!(rt; taken && same);
            assert_eq!(rt; refused, 5);
        }
    }
}
