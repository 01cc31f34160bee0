// Detections: their faults in order, the bytes that they write, and what a refused one leaves.
use crate::assembler::Command::{Cancel, Detect, Keep, Open, Request};
use crate::assembler::{Commands, append, assembled};
use crate::common::*;
use crate::script::ends::End::{Finished, Stopped};
use crate::script::ends::*;
use book::{Book, Table};
use carriers::{Carrier, QueueCarrier};
use detection::CAPACITY_PER_WAIT;

// In a new book: records, messages that wait, and answer bytes; a script, and its end.
const SPACES: [(usize, usize, usize, Commands, End); 10] = [
    (4, 0, 0, &[Detect(3)], Stopped(17, 0, 0, 0, 0)),
    (
        4,
        0,
        3,
        &[Open, Keep, Detect(3), Open, Keep],
        Stopped(17, 0, 2, 2, 0),
    ),
    (4, 0, 3, &[Detect(4)], Stopped(17, 0, 0, 0, 0)),
    (3, 1, 3, &[Detect(3)], Stopped(17, 0, 0, 0, 0)),
    (4, 0, 4, &[Detect(4)], Stopped(1, 2, 0, 0, 0)),
    (4, 0, 4, &[Detect(3)], Finished(1, 0, 4)),
    (4, 0, 4, &[Detect(3), Detect(4)], Stopped(17, 0, 2, 1, 4)),
    (
        4,
        0,
        7,
        &[Detect(3), Open, Detect(2), Cancel],
        Stopped(17, 0, 3, 2, 4),
    ),
    (4, 0, 8, &[Detect(3), Detect(2)], Finished(2, 0, 8)),
    (
        4,
        0,
        11,
        &[Detect(3), Detect(2), Detect(1)],
        Stopped(17, 0, 4, 2, 8),
    ),
];

#[test]
fn space_for_the_answer_is_looked_at_first(rt: HostRuntime) {
    for (records, waiting, space, script, end) in SPACES {
        let lending = Lending {
            records,
            waiting,
            space,
            ..ENOUGH
        };
        let mut memory = trail::<1>();
        let mut book = Book::new(JOBS, MARK, &mut memory);
        let answers = [3, 0, 0, 0, 2, 0, 0, 0];
        ends(&rt, &mut book, script, lending, end, &answers);
    }
}

// In a book in which 0 waits for 1: records, cells, and messages that wait; a script, and its end.
const REFUSED: [(usize, usize, usize, Commands, End); 12] = [
    (3, 1, 1, &[Detect(4)], Stopped(1, 2, 0, 0, 0)),
    (3, 1, 1, &[Detect(0)], Stopped(10, 2, 0, 0, 0)),
    (4, 1, 1, &[Detect(0)], Stopped(11, 2, 0, 0, 0)),
    (4, 1, 0, &[Detect(0)], Stopped(12, 2, 0, 0, 0)),
    (4, 2, 0, &[Detect(0)], Finished(1, 0, 4)),
    (0, 2, 0, &[Open, Keep, Detect(0)], Stopped(10, 2, 2, 2, 0)),
    (
        0,
        2,
        0,
        &[Open, Keep, Detect(0), Open, Keep],
        Stopped(10, 2, 2, 2, 0),
    ),
    (4, 2, 2, &[Open, Keep, Detect(0)], Stopped(11, 2, 2, 2, 0)),
    (
        4,
        2,
        2,
        &[Open, Keep, Detect(0), Open, Keep],
        Stopped(11, 2, 2, 2, 0),
    ),
    (
        4,
        1,
        0,
        &[Open, Keep, Detect(0), Open, Keep],
        Stopped(12, 2, 2, 2, 0),
    ),
    (
        4,
        2,
        0,
        &[Detect(0), Request(2, 1, &[3]), Detect(0)],
        Stopped(12, 2, 7, 2, 4),
    ),
    (
        4,
        4,
        0,
        &[Detect(0), Request(2, 1, &[3]), Detect(3)],
        Finished(3, 0, 8),
    ),
];

#[test]
fn detection_is_refused_in_order(rt: HostRuntime) {
    for (records, cells, waiting, script, end) in REFUSED {
        let lending = Lending {
            records,
            cells,
            waiting,
            ..ENOUGH
        };
        let mut memory = trail::<1>();
        let mut book = Book::new(JOBS, MARK, &mut memory);
        assert!(rt; book.request(0, 1, &[1]).is_ok());
        let answers = [0, 0, 0, 4, 3, 0, 0, 2];
        ends(&rt, &mut book, script, lending, end, &answers);
    }
}

// The same records, carrier and bytes.
fn same_left(one: &Left, other: &Left) -> bool {
    one.records == other.records
        && one.waiting == other.waiting
        && one.handed_out == other.handed_out
        && one.bytes == other.bytes
}

// What a script leaves in a book in which 0 waits for 1.
fn left_by(script: &[u8], lending: Lending) -> Left {
    let mut memory = trail::<1>();
    let mut book = Book::new(JOBS, MARK, &mut memory);
    let _ = book.request(0, 1, &[1]);
    run(&mut book, script, lending)
}

// Records, cells, messages that wait, and answer bytes; a script, and one more detection, which is refused behind it.
const UNCHANGED: [(usize, usize, usize, usize, Commands, u8); 8] = [
    (4, 2, 0, 16, &[], 4),
    (3, 2, 0, 16, &[], 0),
    (4, 2, 1, 16, &[], 0),
    (4, 1, 0, 16, &[], 0),
    (4, 2, 0, 3, &[], 0),
    (4, 2, 0, 16, &[Detect(0)], 4),
    (4, 2, 0, 4, &[Detect(0)], 1),
    (4, 2, 0, 16, &[Detect(0), Request(2, 1, &[0])], 2),
];

// The script leaves the same with the refused detection as without; an empty script leaves everything as it was.
#[test]
fn refused_detection_changes_nothing(rt: HostRuntime) {
    for (records, cells, waiting, space, script, refused) in UNCHANGED {
        let lending = Lending {
            records,
            cells,
            waiting,
            space,
        };
        let accepted = assembled(&rt, script);
        let mut longer = assembled(&rt, script);
        append(&rt, &mut longer, &[Detect(refused)]);
        let one = left_by(accepted.as_slice(), lending);
        let other = left_by(longer.as_slice(), lending);
        assert!(rt; matches!(one.end, Finished(..)), "at {script:?}");
        assert!(rt; matches!(other.end, Stopped(..)), "at {script:?}");
        assert!(rt; same_left(&one, &other), "at {script:?}");
        let untouched = one.records.iter().all(is_untouched);
        assert_eq!(rt; untouched, script.is_empty(), "at {script:?}");
        assert_eq!(rt; one.waiting, waiting, "at {script:?}");
    }
}

// How many jobs the wide book has, and room for the messages of its 80 waits.
const WIDE: usize = 33;

const WIDE_CELLS: usize = CAPACITY_PER_WAIT * 80;

// Sixteen jobs in front of 0, and sixteen more in front of four of these.
const FRONT: &[u8] = &[1, 2, 3, 4, 5, 6, 7, 8, 9, 10, 11, 12, 13, 14, 15, 16];

const BACK: &[u8] = &[
    17, 18, 19, 20, 21, 22, 23, 24, 25, 26, 27, 28, 29, 30, 31, 32,
];

const WIDE_SCRIPT: Commands = &[
    Request(0, 16, FRONT),
    Request(1, 16, BACK),
    Request(2, 16, BACK),
    Request(3, 16, BACK),
    Request(4, 16, BACK),
    Detect(0),
];

// Each wait carries a NOTIFY, a DONE, a GRANT and an ACK: 320 deliveries, whose high byte is 1.
#[test]
fn high_byte_of_the_deliveries_comes_first(rt: HostRuntime) {
    let script = assembled(&rt, WIDE_SCRIPT);
    let mut memory = trail::<1>();
    let mut book = Book::new(WIDE, MARK, &mut memory);
    let mut records = untouched::<WIDE>();
    let mut cells = blank_cells::<WIDE_CELLS>();
    let mut carrier = QueueCarrier::new(&mut cells);
    let mut bytes = [UNTOUCHED; 5];
    let answer = book.run_script(script.as_slice(), &mut records, &mut carrier, &mut bytes);
    assert_eq!(rt; End::from(answer), Finished(6, 0, 4));
    assert_eq!(rt; bytes, [0, 0, 1, 64, UNTOUCHED]);
    assert_eq!(rt; carrier.handed_out(), 320);
}
