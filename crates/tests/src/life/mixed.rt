// A life of three jobs with calls of each kind, over a queue, a stack and a picker.
use crate::assembler::Command::{Bytes, Cancel, Detect, Grant, Open, Request};
use crate::assembler::{Commands, assembled};
use crate::common::*;
use crate::life::steps::*;
use book::{Answer, BookFault, Call, Ending, Moment, ScriptFault, live};
use carriers::{Carrier, Picker, QueueCarrier, StackCarrier};
use detection::{DetectionFault, Verdict};
use std::process::Abort;

// Two places for each of the four waits that there are at most.
const CELLS: usize = 8;

// Rows: at creation; after one request, and after two; with job 0 freed; with job 2 waiting as well; and with all in a ring.
const NEW: [Row; 3] = [ACTIVE, ACTIVE, ACTIVE];

const ONE: [Row; 3] = [(1, &[1, 2]), ACTIVE, ACTIVE];

const TWO: [Row; 3] = [(1, &[1, 2]), (1, &[0]), ACTIVE];

const FREED: [Row; 3] = [ACTIVE, (1, &[0]), ACTIVE];

const DEEP: [Row; 3] = [ACTIVE, (1, &[0]), (1, &[0])];

const RING: [Row; 3] = [(1, &[1, 2]), (1, &[0]), (1, &[1])];

// A group in which job 2 grants to job 0, with a detection from job 1, is cancelled; a detection from job 0; a group is left open.
const GROUPS: Commands = &[Open, Grant(2, 0), Detect(1), Cancel, Detect(0), Open];

// Job 2 comes to wait for job 1, and a detection from it; then a letter that is no command's.
const STRANGE: Commands = &[Request(2, 1, &[1]), Detect(2), Bytes(b"X"), Open];

// A group in which job 2 is to grant to job 1, but is blocked.
const BLOCKED: Commands = &[Open, Grant(2, 1)];

// What the scripts' three detections write, one behind the other.
const WRITTEN: [u8; 14] = [1, 0, 0, 4, 0, 0, 0, 12, 2, 1, 0, 8, UNTOUCHED, UNTOUCHED];

// Calls of each kind, with the bytes of the three scripts. The trail has two records: one is used in the outer group and one in the inner
// group, which is kept.
fn steps<'s>(groups: &'s [u8], strange: &'s [u8], blocked: &'s [u8]) -> [Step<'s>; 20] {
    let refused = |fault| Answer::Edited(Err(fault));
    let unknown = stopped(ScriptFault::UnknownLetter, 7, 2, 4);
    let not_granted = stopped(ScriptFault::OfBook(BookFault::GranterBlocked), 1, 1, 0);
    let no_job = Answer::Detected(Err(DetectionFault::NoSuchJob));
    [
        (request(0, 1, &[1, 2]), DONE, &ONE, 0),
        (request(1, 1, &[0]), DONE, &TWO, 0),
        (grant(0, 1), refused(BookFault::GranterBlocked), &TWO, 0),
        (detect(0), found(Verdict::Free, 12), &TWO, 0),
        (Call::Open, opened(1), &TWO, 1),
        (grant(2, 0), DONE, &FREED, 1),
        (detect(1), found(Verdict::Free, 4), &FREED, 1),
        (ends(Ending::Keep, MARK, 2), not_ended(MARK, 2), &FREED, 1),
        (ends(Ending::Cancel, 8, 1), not_ended(8, 1), &FREED, 1),
        (Call::Open, opened(2), &FREED, 2),
        (request(2, 1, &[0]), DONE, &DEEP, 2),
        (request(0, 1, &[1]), refused(BookFault::TrailFull), &DEEP, 2),
        (ends(Ending::Keep, MARK, 2), ENDED, &DEEP, 1),
        (ends(Ending::Cancel, MARK, 1), ENDED, &TWO, 0),
        (ends(Ending::Cancel, MARK, 1), not_ended(MARK, 1), &TWO, 0),
        (run(groups), finished(6, 1, 8), &TWO, 0),
        (run(strange), unknown, &RING, 0),
        (detect(0), found(Verdict::Stuck, 8), &RING, 0),
        (run(blocked), not_granted, &RING, 0),
        (detect(3), no_job, &RING, 0),
    ]
}

// The accepted detections deliver 12, 4, 4, 12, 8 and 8 messages. No record is used beyond the last job's.
fn lives<C: Carrier>(rt: &impl Abort, carrier: &mut C) {
    let mut trail = trail::<2>();
    let mut records = untouched::<4>();
    let mut answers = [UNTOUCHED; 14];
    let mut moments = [Moment::blank(); 20];
    let groups = assembled(rt, GROUPS);
    let strange = assembled(rt, STRANGE);
    let blocked = assembled(rt, BLOCKED);
    let steps = steps(groups.as_slice(), strange.as_slice(), blocked.as_slice());
    let lived = live(
        creation(3),
        &mut trail,
        &steps.map(|step| step.0),
        &mut records,
        carrier,
        &mut answers,
        &mut moments,
    );
    assert!(rt; lived.is_ok_and(|first| is_seen(&first, &NEW, 0)));
    come_out(rt, &steps, &moments);
    assert!(rt; answers == WRITTEN);
    assert_eq!(rt; carrier.handed_out(), 48);
    assert!(rt; is_untouched(&records[3]));
}

#[test]
fn same_over_each_carrier(rt: HostRuntime) {
    let mut cells = blank_cells::<CELLS>();
    lives(&rt, &mut QueueCarrier::new(&mut cells));
    let mut cells = blank_cells::<CELLS>();
    lives(&rt, &mut StackCarrier::new(&mut cells));
    let mut cells = blank_cells::<CELLS>();
    lives(
        &rt,
        &mut Picker::new(&mut cells, &[3, 1, 4, 1, 5, 9, 2, 6, 5, 3, 5]),
    );
}
