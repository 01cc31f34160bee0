// What kept and cancelled groups leave.
ghost use Rattle.std.specs.Prelude.{◌≡◌, length};
ghost use Rattle.book.specs.CallSteps.{SameGroups};

use crate::common::*;
use book::{Book, Table};

// Every row of the group's opening is back, one that was written three times too.
#[test]
fn cancel_restores_the_rows_of_the_opening(rt: HostRuntime) {
    let mut memory = trail::<4>();
    let mut book = Book::new(4, MARK, &mut memory);
    assert_eq!(rt; number_of(book.request(0, 2, &[1, 2, 3])), 0);
    let ticket = book.open().unwrap();
    let once = number_of(book.grant(1, 0));
    let other = number_of(book.request(1, 1, &[0]));
    let twice = number_of(book.grant(3, 0));
    let thrice = number_of(book.request(0, 1, &[3]));
    let written = is_row(&book, 0, 1, &[3]) && is_row(&book, 1, 1, &[0]);
    book.cancel(ticket).unwrap();
    assert!(rt; once == 0 && other == 0 && twice == 0 && thrice == 0 && written);
    assert!(rt; is_row(&book, 0, 2, &[1, 2, 3]) && is_row(&book, 1, 0, &[]));
}

// A group in which job 1 comes to wait for job 2: the number of the first refusal.
fn inner(book: &mut Book, keeping: bool) -> u8
    ensures groups { SameGroups book.old book.new }
{
    match book.open() {
        Err(fault) => fault.number(),
        Ok(ticket) => {
            let edit = number_of(book.request(1, 1, &[2]));
            end(book, ticket, keeping);
            edit
        }
    }
}

// In a group with two records job 0 comes to wait, then in an inner group job 1, and then job 2.
#[test]
fn outer_group_has_the_records_of_a_kept_one(rt: HostRuntime) {
    // whether the inner and the outer group are kept, and the number of job 2's request
    for (inner_kept, outer_kept, number) in [
        (true, true, 5),
        (true, false, 5),
        (false, true, 0),
        (false, false, 0),
    ] {
        let mut memory = trail::<2>();
        let mut book = Book::new(3, MARK, &mut memory);
        let ticket = book.open().unwrap();
        let first = number_of(book.request(0, 1, &[2]));
        let second = inner(&mut book, inner_kept);
        let inside = book.waits_for(0, 2)
            && book.waits_for(1, 2) == inner_kept
            && book.depth() == 1;
        let third = number_of(book.request(2, 1, &[0]));
        end(&mut book, ticket, outer_kept);
        assert!(rt; first == 0 && second == 0 && third == number && inside);
        assert_eq!(rt; book.waits_for(0, 2), outer_kept);
        assert_eq!(rt; book.waits_for(1, 2), inner_kept && outer_kept);
        assert_eq!(rt; book.waits_for(2, 0), !inner_kept && outer_kept);
    }
}
