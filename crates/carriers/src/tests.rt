// Examples of the three orders, and of carriers that are filled, refuse and are drained.
use crate::*;
use std::process::Abort;

const CELLS: usize = 4;

// The target of the message that fills the cells before a carrier is made of them.
const UNTOUCHED: u8 = 99;

// A message on the wait of the job 7 for the target.
fn grant(target: u8) -> Message {
    Message {
        kind: Kind::Grant,
        wait: Wait { waiter: 7, target },
    }
}

// An empty take, messages for the targets 0 to 3, and takes: they come in the given order, and then none.
fn comes_in_order<C: Carrier>(rt: &impl Abort, carrier: &mut C, order: &[u8]) {
    assert!(rt; carrier.take().is_none());
    for target in [0, 1, 2, 3] {
        assert!(rt; carrier.put(grant(target)).is_ok());
    }
    for target in order {
        assert!(rt; carrier.take() == Some(grant(*target)));
    }
    assert!(rt; carrier.take().is_none());
}

#[test]
fn oldest_or_newest_first(rt: HostRuntime) {
    let mut cells = [grant(UNTOUCHED); CELLS];
    let mut queue = QueueCarrier::new(&mut cells);
    comes_in_order(&rt, &mut queue, &[0, 1, 2, 3]);
    let mut cells = [grant(UNTOUCHED); CELLS];
    let mut stack = StackCarrier::new(&mut cells);
    comes_in_order(&rt, &mut stack, &[3, 2, 1, 0]);
}

fn picked(rt: &impl Abort, picks: &[u16], order: &[u8]) {
    let mut cells = [grant(UNTOUCHED); CELLS];
    let mut picker = Picker::new(&mut cells, picks);
    comes_in_order(rt, &mut picker, order);
}

#[test]
fn as_picked(rt: HostRuntime) {
    picked(&rt, &[], &[0, 1, 2, 3]);
    picked(&rt, &[0, 1, 65_535], &[0, 2, 3, 1]);
    picked(&rt, &[65_535, 1, 0], &[3, 1, 0, 2]);
}

// Fills the carrier, which then refuses, and drains it.
fn fills_and_drains<C: Carrier>(rt: &impl Abort, carrier: &mut C, capacity: usize) {
    assert_eq!(rt; carrier.capacity(), capacity);
    for _ in 0..capacity {
        assert!(rt; carrier.put(grant(0)).is_ok());
    }
    match carrier.put(grant(0)) {
        Ok(()) => assert!(rt; false),
        Err(full) => assert_eq!(rt; full.number(), 12),
    }
    assert_eq!(rt; carrier.waiting(), capacity);
    assert_eq!(rt; drain(carrier) as usize, capacity);
    assert_eq!(rt; carrier.waiting(), 0);
    assert_eq!(rt; carrier.handed_out() as usize, capacity);
}

#[test]
fn refuses_when_full(rt: HostRuntime) {
    for capacity in 0..CELLS {
        let mut cells = [grant(UNTOUCHED); CELLS];
        let mut queue = QueueCarrier::new(&mut cells[..capacity]);
        fills_and_drains(&rt, &mut queue, capacity);
        let mut cells = [grant(UNTOUCHED); CELLS];
        let mut stack = StackCarrier::new(&mut cells[..capacity]);
        fills_and_drains(&rt, &mut stack, capacity);
        let mut cells = [grant(UNTOUCHED); CELLS];
        let mut picker = Picker::new(&mut cells[..capacity], &[0, 1, 65_535]);
        fills_and_drains(&rt, &mut picker, capacity);
    }
}
