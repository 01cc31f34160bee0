// Calls on B2.
use crate::tests::common::*;
use crate::tests::detections::{answers_over_each, free, stuck};
use book::Book;

// Job 1 comes to wait for job 0 in a group that is then cancelled: inside it is B3, and after it B2 again.
#[test]
fn a_cancelled_request(rt: HostRuntime) {
    let mut memory = trail();
    let mut book = Book::new(2, 7, &mut memory);
    request_each(&rt, &mut book, B2);
    let Ok(ticket) = book.open() else {
        panic!(rt; "no group was opened");
    };
    request_each(&rt, &mut book, &[ACTIVE, (1, &[0])]);
    answers_over_each(&rt, &book, stuck(0, 4));
    book.cancel(ticket).unwrap();
    answers_over_each(&rt, &book, free(0, 4));
    answers_over_each(&rt, &book, free(1, 2));
}

// A grant: one makes job 0 active, and two are refused and leave B2.
#[test]
fn grants(rt: HostRuntime) {
    // the granter, the waiter, the number of the refusal or 0, and what a detection answers then
    for (granter, waiter, number, expected) in [
        (1, 0, 0, free(0, 0)),
        (0, 1, 6, free(0, 4)),
        (1, 1, 7, free(0, 4)),
    ] {
        let mut memory = trail();
        let mut book = Book::new(2, 7, &mut memory);
        request_each(&rt, &mut book, B2);
        let granted = book
            .grant(granter, waiter)
            .map_or_else(|fault| fault.number(), |()| 0);
        assert_eq!(rt; granted, number);
        answers_over_each(&rt, &book, expected);
    }
}
