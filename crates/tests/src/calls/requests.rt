// Requests: the limit of the targets, and the refusals in their order.
use crate::common::*;
use book::{Book, BookFault};

// Sixteen targets, and one more.
const MANY: [u8; 17] = [0, 1, 2, 3, 4, 5, 6, 7, 8, 9, 10, 11, 12, 13, 14, 15, 16];

#[test]
fn waits_for_sixteen(rt: HostRuntime) {
    let mut memory = trail::<1>();
    let mut book = Book::new(18, MARK, &mut memory);
    assert_eq!(rt; number_of(book.request(17, 16, &MANY)), 3);
    assert_eq!(rt; number_of(book.request(17, 1, &MANY)), 3);
    assert!(rt; is_row(&book, 17, 0, &[]));
    assert_eq!(rt; number_of(book.request(17, 16, &MANY[..16])), 0);
    assert!(rt; is_row(&book, 17, 16, &MANY[..16]));
}

// A request is refused with this number and value.
fn refused(answer: Result<(), BookFault>, number: u8, value: Option<usize>) -> bool {
    match answer {
        Ok(()) => false,
        Err(fault) => fault.number() == number && fault.value() == value,
    }
}

// In a book of 4 jobs, in which 1 waits for 0 and a group without a trail is open: the first check that fails tells.
#[test]
fn refuses_in_order(rt: HostRuntime) {
    // job, need and targets of a request, and the number and value of its refusal
    let cases: [(usize, u8, &[u8], u8, Option<usize>); 13] = [
        (4, 0, &[], 1, None),
        (1, 0, &[], 2, None),
        (1, 1, &[2], 2, None),
        (0, 1, &[], 3, None),
        (0, 0, &[1], 3, None),
        (0, 2, &[1], 3, None),
        (0, 2, &[4], 3, None),
        (0, 1, &[4, 0], 4, Some(0)),
        (0, 1, &[0, 1], 4, Some(0)),
        (0, 1, &[2, 1, 9], 4, Some(1)),
        (0, 2, &[1, 2, 2], 4, Some(2)),
        (0, 3, &[1, 2, 4], 4, Some(2)),
        (0, 1, &[1], 5, None),
    ];
    for (job, need, targets, number, value) in cases {
        let mut memory = trail::<1>();
        let mut book = Book::new(4, MARK, &mut memory[..0]);
        let first = number_of(book.request(1, 1, &[0]));
        let ticket = book.open().unwrap();
        let answer = book.request(job, need, targets);
        let same = is_row(&book, 0, 0, &[]) && is_row(&book, 1, 1, &[0]);
        book.keep(ticket).unwrap();
        assert!(rt; first == 0 && same);
        assert!(rt; refused(answer, number, value));
    }
}
