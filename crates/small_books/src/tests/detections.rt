// Detections on the small books, as books and as charts, over each of the three carriers.
use crate::tests::common::*;
use book::{Book, TwoWayTable};
use carriers::{Carrier, Picker, QueueCarrier, StackCarrier};
use chart::{CHART_MAX, Chart, write_chart};
use detection::{Detection, RunRecord, Verdict, detect};
use std::process::Abort;

// One record more than the largest of the books has jobs.
const RECORDS: usize = JOBS + 1;

// The mark of a record that no run has touched.
const UNTOUCHED: u16 = 99;

/// What a detection is to answer.
#[derive(Clone, Copy, Drop)]
pub struct Expected {
    pub initiator: usize,
    pub verdict: Verdict,
    pub deliveries: u32,
}

/// The initiator is not stuck.
pub fn free(initiator: usize, deliveries: u32) -> Expected {
    Expected {
        initiator,
        verdict: Verdict::Free,
        deliveries,
    }
}

/// The initiator is stuck.
pub fn stuck(initiator: usize, deliveries: u32) -> Expected {
    Expected {
        initiator,
        verdict: Verdict::Stuck,
        deliveries,
    }
}

// A detection over a carrier answers as expected, and leaves the record behind the last job as it was.
fn answers<T: TwoWayTable, C: Carrier>(
    rt: &impl Abort,
    table: &T,
    carrier: &mut C,
    expected: Expected,
) {
    let mut records = [RunRecord {
        granted: UNTOUCHED,
        ..RunRecord::blank()
    }; RECORDS];
    let found = detect(table, expected.initiator, &mut records, carrier);
    assert!(rt;
        found
            == Ok(Detection {
                verdict: expected.verdict,
                deliveries: expected.deliveries
            })
    );
    assert_eq!(rt; carrier.handed_out(), expected.deliveries);
    assert_eq!(rt; carrier.waiting(), 0);
    assert_eq!(rt; records[RECORDS - 1].granted, UNTOUCHED);
}

/// A detection answers as expected over a queue, a stack and a picker.
pub fn answers_over_each<T: TwoWayTable>(rt: &impl Abort, table: &T, expected: Expected) {
    let mut cells = [empty_message(); CELLS];
    answers(rt, table, &mut QueueCarrier::new(&mut cells), expected);
    let mut cells = [empty_message(); CELLS];
    answers(rt, table, &mut StackCarrier::new(&mut cells), expected);
    let mut cells = [empty_message(); CELLS];
    answers(
        rt,
        table,
        &mut Picker::new(&mut cells, &[3, 1, 4, 1, 5, 9, 2, 6]),
        expected,
    );
}

// The rows answer as expected, as a book and as a chart.
fn comes_out(rt: &impl Abort, rows: &[Row], expected: Expected) {
    assert!(rt; rows.len() <= JOBS);
    let mut memory = trail();
    let mut book = Book::new(rows.len(), 7, &mut memory);
    request_each(rt, &mut book, rows);
    answers_over_each(rt, &book, expected);
    let mut bytes = [0; CHART_MAX];
    let length = write_chart(&book, &mut bytes);
    answers_over_each(rt, &Chart::new(&bytes[..length]), expected);
}

#[test]
fn each_book(rt: HostRuntime) {
    for (rows, expected) in [
        (ONE_JOB, free(0, 0)),
        (B2, free(0, 4)),
        (B2, free(1, 2)),
        (B3, stuck(0, 4)),
        (B4, free(0, 12)),
        (B5, stuck(0, 8)),
        (B6, free(0, 6)),
        (B6, free(2, 6)),
        (B7, stuck(0, 16)),
    ] {
        comes_out(&rt, rows, expected);
    }
}
