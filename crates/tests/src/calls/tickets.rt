// Tickets that do not fit, and come back.
use crate::common::*;
use book::{Book, RefusedEnding};

// A ticket of mark 7 goes to a book of mark 8 with a group open, and to one of mark 7 with none; then its own book takes it, as the other
// book does the ticket of its group.
#[test]
fn goes_home_unchanged(rt: HostRuntime) {
    let mut first = trail::<1>();
    let mut second = trail::<1>();
    let mut third = trail::<1>();
    let mut home = Book::new(2, MARK, &mut first);
    let mut foreign = Book::new(2, 8, &mut second);
    let mut idle = Book::new(2, MARK, &mut third);
    let lost = foreign.open().unwrap();
    let RefusedEnding {
        fault: unopened,
        ticket: lost,
    } = home.keep(lost).unwrap_err();
    let ticket = home.open().unwrap();
    let RefusedEnding {
        fault: kept,
        ticket,
    } = foreign.keep(ticket).unwrap_err();
    let RefusedEnding {
        fault: cancelled,
        ticket,
    } = foreign.cancel(ticket).unwrap_err();
    let RefusedEnding {
        fault: early,
        ticket,
    } = idle.keep(ticket).unwrap_err();
    let RefusedEnding {
        fault: late,
        ticket,
    } = idle.cancel(ticket).unwrap_err();
    let mark = ticket.mark();
    let depth = ticket.depth();
    let open = (home.depth(), foreign.depth(), idle.depth());
    home.keep(ticket).unwrap();
    foreign.cancel(lost).unwrap();
    for fault in [unopened, kept, cancelled, early, late] {
        assert_eq!(rt; fault.number(), 9);
    }
    assert!(rt; mark == 7 && depth == 1);
    assert!(rt; open == (1, 1, 0));
    assert!(rt; home.depth() == 0 && foreign.depth() == 0 && idle.depth() == 0);
}

// The outer of two groups is not ended before the inner one.
#[test]
fn waits_for_the_inner_group(rt: HostRuntime) {
    for keeping in [true, false] {
        let mut memory = trail::<1>();
        let mut book = Book::new(2, MARK, &mut memory);
        let outer = book.open().unwrap();
        let inner = book.open().unwrap();
        let ended = if keeping {
            book.keep(outer)
        } else {
            book.cancel(outer)
        };
        let RefusedEnding { fault, ticket } = ended.unwrap_err();
        let deep = book.depth() == 2 && ticket.depth() == 1 && inner.depth() == 2;
        book.keep(inner).unwrap();
        book.cancel(ticket).unwrap();
        assert!(rt; fault.number() == 9 && deep);
        assert_eq!(rt; book.depth(), 0);
    }
}
