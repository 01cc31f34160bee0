// Small lives: scripts that share the answer bytes, a book without jobs, and moments more and fewer than calls.
use crate::assembler::Command::{Detect, Keep, Open};
use crate::assembler::assembled;
use crate::common::*;
use crate::life::steps::*;
use book::{Answer, BookFault, Call, Ending, Moment, ScriptFault, live};
use carriers::{Carrier, QueueCarrier};
use detection::DetectionFault;

// Job 0 waits for job 1.
const WAITING: [Row; 2] = [(1, &[1]), ACTIVE];

// Each script writes behind those before it, and one of them finds too little room.
#[test]
fn bytes_stand_one_behind_the_other(rt: HostRuntime) {
    let detection = assembled(&rt, &[Detect(0)]);
    let left_open = assembled(&rt, &[Open, Detect(1)]);
    let stopped_inside = assembled(&rt, &[Open, Detect(0)]);
    let kept = assembled(&rt, &[Open, Keep]);
    let no_space = stopped(ScriptFault::NoAnswerSpace, 1, 1, 0);
    let steps: [Step; 6] = [
        (request(0, 1, &[1]), DONE, &WAITING, 0),
        (run(detection.as_slice()), finished(1, 0, 4), &WAITING, 0),
        (run(&[]), finished(0, 0, 0), &WAITING, 0),
        (run(left_open.as_slice()), finished(2, 1, 4), &WAITING, 0),
        (run(stopped_inside.as_slice()), no_space, &WAITING, 0),
        (run(kept.as_slice()), finished(2, 0, 0), &WAITING, 0),
    ];
    let mut trail = trail::<1>();
    let mut records = untouched::<2>();
    let mut cells = blank_cells::<2>();
    let mut answers = [UNTOUCHED; 11];
    let mut moments = [Moment::blank(); 6];
    let lived = live(
        creation(2),
        &mut trail,
        &steps.map(|step| step.0),
        &mut records,
        &mut QueueCarrier::new(&mut cells),
        &mut answers,
        &mut moments,
    );
    assert!(rt; lived.is_ok());
    come_out(&rt, &steps, &moments);
    assert!(rt; answers[..8] == [0, 0, 0, 4, 1, 0, 0, 2]);
    assert!(rt; answers[8..] == [UNTOUCHED; 3]);
}

#[test]
fn book_without_jobs(rt: HostRuntime) {
    let no_job = Answer::Edited(Err(BookFault::NoSuchJob));
    let undetected = Answer::Detected(Err(DetectionFault::NoSuchJob));
    let script = assembled(&rt, &[Open, Detect(0)]);
    let stops = stopped(ScriptFault::OfDetection(DetectionFault::NoSuchJob), 1, 1, 0);
    let steps: [Step; 6] = [
        (request(0, 1, &[1]), no_job, &[], 0),
        (grant(0, 0), no_job, &[], 0),
        (detect(0), undetected, &[], 0),
        (Call::Open, opened(1), &[], 1),
        (run(script.as_slice()), stops, &[], 1),
        (ends(Ending::Keep, MARK, 1), ENDED, &[], 0),
    ];
    // jobs asked for
    for jobs in [0, 257] {
        let mut trail = trail::<1>();
        let mut cells = blank_cells::<2>();
        let mut answers = [UNTOUCHED; 4];
        let mut moments = [Moment::blank(); 6];
        let lived = live(
            creation(jobs),
            &mut trail,
            &steps.map(|step| step.0),
            &mut [],
            &mut QueueCarrier::new(&mut cells),
            &mut answers,
            &mut moments,
        );
        assert!(rt; lived.is_ok_and(|first| is_seen(&first, &[], 0)));
        come_out(&rt, &steps, &moments);
        assert!(rt; answers == [UNTOUCHED; 4]);
    }
}

// A life of two calls, the second a script with a detection; where it is refused, nothing changes.
#[test]
fn moments_are_as_many_as_calls(rt: HostRuntime) {
    let script = assembled(&rt, &[Detect(0)]);
    let calls = [request(0, 1, &[1]), run(script.as_slice())];
    let seen = Moment::blank().seen;
    let mark = opened(8);
    // whether a life is lived, the deliveries, the bytes, the GRANTs that job 0 received, and the first answer
    let kept = (false, 0, [UNTOUCHED; 4], UNTOUCHED as u16, mark);
    let changed = (true, 4, [0, 0, 0, 4], 1, DONE);
    // how many moments, and what comes of it
    for (room, outcome) in [(0, kept), (1, kept), (2, changed), (3, changed)] {
        let (is_lived, deliveries, bytes, granted, first) = outcome;
        let mut trail = trail::<1>();
        let mut records = untouched::<2>();
        let mut cells = blank_cells::<2>();
        let mut carrier = QueueCarrier::new(&mut cells);
        let mut answers = [UNTOUCHED; 4];
        let mut moments = [Moment { answer: mark, seen }; 3];
        let lived = live(
            creation(2),
            &mut trail,
            &calls,
            &mut records,
            &mut carrier,
            &mut answers,
            &mut moments[..room],
        );
        assert_eq!(rt; lived.is_ok(), is_lived);
        assert_eq!(rt; carrier.handed_out(), deliveries);
        assert_eq!(rt; records[0].granted, granted);
        assert!(rt; answers == bytes);
        assert!(rt; moments[0].answer == first && moments[2].answer == mark);
    }
}
