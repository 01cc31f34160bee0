// Steps of a life: calls, what they answer, and what is seen after them.
use crate::common::*;
use book::{
    Answer, BookFault, Call, Creation, Edit, Ending, FinishedScript, Moment, RefusedTicketId,
    ScriptFault, Snapshot, StoppedScript, TicketId,
};
use detection::{Detection, Verdict};
use std::process::Abort;

/// A call, what it answers, and the rows and the depth that are seen after it.
pub type Step<'s> = (Call<'s>, Answer, &'static [Row<'static>], usize);

/// The answer of an edit and of an ending that are accepted.
pub const DONE: Answer = Answer::Edited(Ok(()));

pub const ENDED: Answer = Answer::Ended(Ok(()));

pub fn request(job: usize, need: u8, targets: &[u8]) -> Call<'_> {
    Call::Edit(Edit::Request { job, need, targets })
}

pub fn grant(granter: usize, waiter: usize) -> Call<'static> {
    Call::Edit(Edit::Grant { granter, waiter })
}

pub fn run(script: &[u8]) -> Call<'_> {
    Call::Run { script }
}

pub fn detect(job: usize) -> Call<'static> {
    Call::Detect { job }
}

pub fn ends(ending: Ending, mark: u16, depth: u8) -> Call<'static> {
    let id = TicketId { mark, depth };
    Call::End { ending, id }
}

/// The answer of an ending whose ticket id does not fit: the ticket id comes back.
pub fn not_ended(mark: u16, depth: u8) -> Answer {
    Answer::Ended(Err(RefusedTicketId {
        fault: BookFault::NotInnermost,
        id: TicketId { mark, depth },
    }))
}

pub fn opened(depth: u8) -> Answer {
    Answer::Opened(Ok(TicketId { mark: MARK, depth }))
}

pub fn found(verdict: Verdict, deliveries: u32) -> Answer {
    Answer::Detected(Ok(Detection {
        verdict,
        deliveries,
    }))
}

pub fn finished(commands: usize, cancelled: usize, written: usize) -> Answer {
    Answer::Ran(Ok(FinishedScript {
        commands,
        cancelled,
        written,
    }))
}

pub fn stopped(fault: ScriptFault, offset: usize, index: usize, written: usize) -> Answer {
    Answer::Ran(Err(StoppedScript {
        fault,
        offset,
        index,
        written,
    }))
}

/// What creation takes here, besides a trail.
pub fn creation(jobs: usize) -> Creation {
    Creation { jobs, mark: MARK }
}

/// These rows and no others are seen, and so many open groups.
pub fn is_seen(seen: &Snapshot, rows: &[Row], depth: usize) -> bool {
    seen.depth() == depth
        && seen.rows().len() == rows.len()
        && seen.rows().iter().zip(rows).all(|(row, expected)| {
            row.need == expected.0 && row.targets.get(..row.count as usize) == Some(expected.1)
        })
}

/// The moments are as the steps say.
pub fn come_out(rt: &impl Abort, steps: &[Step], moments: &[Moment]) {
    for (step, moment) in steps.iter().zip(moments) {
        assert_eq!(rt; moment.answer, step.1);
        assert!(rt; is_seen(&moment.seen, step.2, step.3));
    }
}
