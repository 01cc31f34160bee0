//! A day of regeneration, lived from beginning to end by one call, over each of the carriers.
#![tactic(auto)]

mod day;
mod names;
mod show;
mod tell;
mod trouble;

use crate::day::{MARK, STEPS, Step, day};
use crate::names::JOBS;
use crate::trouble::Trouble;
use wait_book::{
    CAPACITY_PER_WAIT, Call, Carrier, Creation, Message, Moment, Picker, QueueCarrier, RunRecord,
    Snapshot, StackCarrier, UndoRecord, live,
};

// How many undo records the groups of the day can hold.
const TRAIL: usize = 64;

// The most waits that the book has when the detector is asked.
const MOST_WAITS: usize = 15;

const CELLS: usize = CAPACITY_PER_WAIT * MOST_WAITS;

// How many bytes the scripts of the day can write.
const ANSWERS: usize = 16;

// What the picker picks; after these it hands out the oldest message.
const PICKS: [u16; 8] = [3, 1, 4, 1, 5, 9, 2, 6];

// A day that was lived: what was seen at first, and at each call, and what the scripts wrote.
#[derive(Drop)]
struct Lived {
    first: Snapshot,
    moments: [Moment; STEPS],
    answers: [u8; ANSWERS],
}

// Lives the day over a carrier.
fn live_over<C: Carrier>(calls: &[Call<'_>], carrier: &mut C) -> Result<Lived, Trouble> {
    let mut trail = [UndoRecord::default(); TRAIL];
    let mut records = [RunRecord::default(); JOBS];
    let mut answers = [0; ANSWERS];
    let mut moments = [Moment::default(); STEPS];
    let first = live(
        Creation {
            jobs: JOBS,
            mark: MARK,
        },
        &mut trail,
        calls,
        &mut records,
        carrier,
        &mut answers,
        &mut moments,
    )?;
    Ok(Lived {
        first,
        moments,
        answers,
    })
}

// Tells the whole day, call by call.
fn tell_all(rt: &HostRuntime, day: &[Step<'static>; STEPS], lived: &Lived) -> Result<(), Trouble> {
    let mut before = &lived.first;
    let mut written = 0;
    for (step, moment) in day.iter().zip(&lived.moments) {
        let bytes = lived.answers.get(written..).unwrap_or(&[]);
        tell::call(rt, step, before, moment, bytes)?;
        written = written.saturating_add(moment.answer.written());
        before = &moment.seen;
    }
    Ok(())
}

fn main(rt: HostRuntime) -> Result<(), Trouble> {
    let mut cells = [Message::default(); CELLS];
    let day = day();
    let calls = day.map(|step| step.call);
    let over_queue = live_over(&calls, &mut QueueCarrier::new(&mut cells))?;
    tell::beginning(&rt, &over_queue.first)?;
    tell_all(&rt, &day, &over_queue)?;
    print!(rt; "the detector over a queue:")?;
    tell::detections(&rt, &day, &over_queue.moments)?;
    let over_stack = live_over(&calls, &mut StackCarrier::new(&mut cells))?;
    print!(rt; "the same day over a stack:")?;
    tell::detections(&rt, &day, &over_stack.moments)?;
    let over_picker = live_over(&calls, &mut Picker::new(&mut cells, &PICKS))?;
    print!(rt; "the same day over a picker:")?;
    tell::detections(&rt, &day, &over_picker.moments)?;
    Ok(())
}
