// Each command where no check stops it.
use crate::assembler::Command::{Cancel, Detect, Grant, Keep, Open, Request};
use crate::assembler::Commands;
use crate::common::*;
use crate::script::ends::End::Finished;
use crate::script::ends::*;
use book::Book;

// The edits and the groups: how many commands are carried out, and the row of job 0 afterwards.
const EDITS: [(Commands, usize, Row); 9] = [
    (&[], 0, ACTIVE),
    (&[Request(0, 1, &[1])], 1, (1, &[1])),
    (&[Request(0, 2, &[1, 2, 3])], 1, (2, &[1, 2, 3])),
    (&[Request(0, 2, &[1, 2, 3]), Grant(2, 0)], 2, (1, &[1, 3])),
    (
        &[Request(0, 2, &[1, 2, 3]), Grant(2, 0), Grant(1, 0)],
        3,
        ACTIVE,
    ),
    (&[Open, Keep], 2, ACTIVE),
    (&[Open, Request(0, 1, &[1]), Keep], 3, (1, &[1])),
    (&[Open, Request(0, 1, &[1]), Cancel], 3, ACTIVE),
    (&[Open, Open, Request(0, 1, &[1]), Keep, Cancel], 5, ACTIVE),
];

#[test]
fn edits_and_groups_are_carried_out(rt: HostRuntime) {
    for (script, commands, (need, targets)) in EDITS {
        let mut memory = trail::<4>();
        let mut book = Book::new(JOBS, MARK, &mut memory);
        let end = Finished(commands, 0, 0);
        ends(&rt, &mut book, script, ENOUGH, end, &[]);
        assert!(rt; is_row(&book, 0, need, targets), "at {script:?}");
    }
}

// The small books, each made by requests, and then detections: how many commands, and the answers.
const SMALL_BOOKS: [(Commands, usize, &[u8]); 7] = [
    (&[Detect(0)], 1, &[0, 0, 0, 0]),
    (
        &[Request(0, 1, &[1]), Detect(0), Detect(1)],
        3,
        &[0, 0, 0, 4, 1, 0, 0, 2],
    ),
    (
        &[Request(0, 1, &[1]), Request(1, 1, &[0]), Detect(0)],
        3,
        &[0, 1, 0, 4],
    ),
    (
        &[Request(0, 1, &[1, 2]), Request(1, 1, &[0]), Detect(0)],
        3,
        &[0, 0, 0, 12],
    ),
    (
        &[Request(0, 2, &[1, 2]), Request(1, 1, &[0]), Detect(0)],
        3,
        &[0, 1, 0, 8],
    ),
    (
        &[Request(0, 1, &[1]), Request(2, 1, &[1]), Detect(0)],
        3,
        &[0, 0, 0, 6],
    ),
    (
        &[
            Request(0, 3, &[1, 2, 3]),
            Request(1, 1, &[2]),
            Request(3, 1, &[0]),
            Detect(0),
        ],
        4,
        &[0, 1, 0, 16],
    ),
];

#[test]
fn detections_write_their_answers(rt: HostRuntime) {
    for (script, commands, answers) in SMALL_BOOKS {
        let mut memory = trail::<1>();
        let mut book = Book::new(JOBS, MARK, &mut memory);
        let end = Finished(commands, 0, answers.len());
        ends(&rt, &mut book, script, ENOUGH, end, answers);
    }
}
