// Two detectors that nearly go by the rules, and what goes wrong with them.
use crate::tests::common::*;
use crate::tests::machine::{Closing, Variant, run};
use book::Book;
use carriers::Picker;
use detection::{RunRecord, Verdict, detect};
use std::process::Abort;

// 0 waits for 1, and 1 for 2, which is active: a grant from 2 and then one from 1 make 0 active.
const CHAIN: &[Row<'static>] = &[(1, &[1]), (1, &[2]), ACTIVE];

// In B7: first the NOTIFY for 2, then its GRANT for 1, which is freed before its own NOTIFY comes; after these two the oldest message.
const FREED_BEFORE_NOTIFIED: &[u16] = &[1, 3];

// In the chain: the NOTIFY for 1, the NOTIFY for 2 and the GRANT for 1; then, while the GRANT for 0 waits, what was put after it.
const LATE_GRANT: &[u16] = &[0, 0, 0, 1, 1, 1];

// A machine that goes by the rules ends as the detector does, where the messages come in the same order. When its initiator closes its notice,
// no message waits.
fn ends_as_the_detector(
    rt: &impl Abort,
    rows: &'static [Row<'static>],
    initiator: u8,
    picks: &[u16],
) {
    let mut memory = trail();
    let mut book = Book::new(rows.len(), 7, &mut memory);
    request_each(rt, &mut book, rows);
    let mut records = [RunRecord::blank(); JOBS];
    let mut cells = [empty_message(); CELLS];
    let mut picker = Picker::new(&mut cells, picks);
    let Ok(found) = detect(&book, initiator as usize, &mut records, &mut picker) else {
        panic!(rt; "the detection was stopped");
    };
    let outcome = run(rt, Variant::Exact, rows, initiator, picks);
    assert_eq!(rt; outcome.verdict, found.verdict);
    assert_eq!(rt; outcome.deliveries, found.deliveries);
    if let Some(closing) = outcome.closing {
        assert_eq!(rt; closing.verdict, found.verdict);
        assert_eq!(rt; closing.waiting, 0);
    }
    for (own, record) in outcome.records.iter().zip(&records) {
        assert_eq!(rt; *own, *record);
    }
}

#[test]
fn exact_rules(rt: HostRuntime) {
    for rows in [ONE_JOB, B2, B3, B4, B5, B6, B7, CHAIN] {
        for picks in [&[], FREED_BEFORE_NOTIFIED, LATE_GRANT] {
            ends_as_the_detector(&rt, rows, 0, picks);
        }
    }
}

// Job 0 of B7 is stuck. With the need counted down, 1 lets go twice, so that 0 gets two GRANTs from it; with that from 2 they are three, and
// 0 looks free. It then frees 3, from which the fourth comes.
#[test]
fn need_counted_down(rt: HostRuntime) {
    let right = run(&rt, Variant::Exact, B7, 0, FREED_BEFORE_NOTIFIED);
    assert_eq!(rt; right.verdict, Verdict::Stuck);
    assert_eq!(rt; right.deliveries, 16);
    assert_eq!(rt; right.records[0].granted, 2);
    let wrong = run(&rt, Variant::NeedCountedDown, B7, 0, FREED_BEFORE_NOTIFIED);
    assert_eq!(rt; wrong.verdict, Verdict::Free);
    assert_eq!(rt; wrong.records[0].granted, 4);
}

// Job 0 of the chain is free, by eight messages. Where 1 acknowledges early, 0 closes its notice while the GRANT for it is on its way, and a
// verdict read then is stuck.
#[test]
fn early_ack(rt: HostRuntime) {
    let right = run(&rt, Variant::Exact, CHAIN, 0, LATE_GRANT);
    assert_eq!(rt; right.verdict, Verdict::Free);
    assert_eq!(rt; right.deliveries, 8);
    assert!(rt;
        right.closing
            == Some(Closing {
                verdict: Verdict::Free,
                waiting: 0
            })
    );
    let wrong = run(&rt, Variant::EarlyAck, CHAIN, 0, LATE_GRANT);
    assert!(rt;
        wrong.closing
            == Some(Closing {
                verdict: Verdict::Stuck,
                waiting: 1
            })
    );
    assert_eq!(rt; wrong.verdict, Verdict::Free);
    assert_eq!(rt; wrong.deliveries, 8);
}
