// Grants: what they leave, and the refusals in their order.
use crate::common::*;
use book::{Book, Table};

// A grant takes its wait away, and the one that meets the last need takes the others away with it.
#[test]
fn last_need_clears_the_waits(rt: HostRuntime) {
    // granter, and need and targets of job 0 after the grant
    let cases: [(usize, u8, &[u8]); 2] = [(2, 1, &[1, 3]), (3, 0, &[])];
    let mut memory = trail::<1>();
    let mut book = Book::new(4, MARK, &mut memory);
    assert_eq!(rt; number_of(book.request(0, 2, &[1, 2, 3])), 0);
    for (granter, need, targets) in cases {
        assert!(rt; book.waits_for(0, granter));
        assert_eq!(rt; number_of(book.grant(granter, 0)), 0);
        assert!(rt; is_row(&book, 0, need, targets) && !book.waits_for(0, granter));
        assert_eq!(rt; number_of(book.grant(granter, 0)), 7);
    }
    assert!(rt; !book.waits_for(0, 1));
    assert_eq!(rt; number_of(book.request(0, 1, &[1])), 0);
}

// In a book of 4 jobs, in which 0 waits for 1 and 2, and 1 waits for 0, and a group without a trail is open.
#[test]
fn refuses_in_order(rt: HostRuntime) {
    // granter, waiter, and the number of the refusal
    let cases = [
        (4, 0, 1),
        (2, 4, 1),
        (1, 4, 1),
        (1, 0, 6),
        (0, 1, 6),
        (0, 3, 6),
        (2, 1, 7),
        (3, 0, 7),
        (3, 3, 7),
        (2, 0, 5),
    ];
    for (granter, waiter, number) in cases {
        let mut memory = trail::<1>();
        let mut book = Book::new(4, MARK, &mut memory[..0]);
        let first = number_of(book.request(0, 1, &[1, 2]));
        let second = number_of(book.request(1, 1, &[0]));
        let ticket = book.open().unwrap();
        let answer = number_of(book.grant(granter, waiter));
        let same = is_row(&book, 0, 1, &[1, 2]) && is_row(&book, 1, 1, &[0]);
        book.keep(ticket).unwrap();
        assert!(rt; first == 0 && second == 0 && same);
        assert_eq!(rt; answer, number);
        assert_eq!(rt; number_of(book.grant(2, 0)), 0);
        assert!(rt; is_row(&book, 0, 0, &[]));
    }
}
