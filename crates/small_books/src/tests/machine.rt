// A machine for the exchange, written for the tests alone: it goes by the rules, or makes one of two classic mistakes.
use crate::tests::common::{CELLS, Row, empty_message};
use book::JOBS_MAX;
use carriers::{Carrier, Kind, Message, Picker, Wait};
use detection::{RunRecord, Verdict};
use std::process::Abort;

// More deliveries than any run here has.
const DELIVERIES: usize = 64;

/// The rules that a machine goes by.
#[derive(Clone, Copy, PartialEq, Eq)]
pub enum Variant {
    /// Those of the exchange.
    Exact,
    /// The need itself is counted down by the GRANTs: a job lets go when a GRANT brings it to 0, and when it spreads and finds it 0.
    NeedCountedDown,
    /// A job that a GRANT frees puts its ACK at once, and none when the last of its own ACKs has come.
    EarlyAck,
}

/// What is seen when the initiator closes its notice.
#[derive(Clone, Copy, PartialEq, Eq, Debug)]
pub struct Closing {
    pub verdict: Verdict,
    pub waiting: usize,
}

/// What has come of a run when no message waits.
#[derive(Clone, Copy)]
pub struct Outcome {
    pub verdict: Verdict,
    pub deliveries: u32,
    /// None if the initiator has not closed its notice.
    pub closing: Option<Closing>,
    pub records: [RunRecord; JOBS_MAX],
}

#[derive(Drop)]
struct Machine<'a, 'c, 'p, R> {
    rt: &'a R,
    variant: Variant,
    rows: &'static [Row<'static>],
    initiator: u8,
    records: [RunRecord; JOBS_MAX],
    messages: Picker<'c, 'p>,
    closing: Option<Closing>,
}

/// Runs the exchange over the rows from an initiator, the messages coming as picked.
pub fn run(
    rt: &impl Abort,
    variant: Variant,
    rows: &'static [Row<'static>],
    initiator: u8,
    picks: &[u16],
) -> Outcome {
    let mut cells = [empty_message(); CELLS];
    let mut machine = Machine {
        rt,
        variant,
        rows,
        initiator,
        records: [RunRecord::blank(); JOBS_MAX],
        messages: Picker::new(&mut cells, picks),
        closing: None,
    };
    machine.spread(initiator);
    for _ in 0..DELIVERIES {
        let Some(message) = machine.messages.take() else {
            break;
        };
        machine.receive(message);
    }
    assert_eq!(rt; machine.messages.waiting(), 0);
    Outcome {
        verdict: machine.verdict(),
        deliveries: machine.messages.handed_out(),
        closing: machine.closing,
        records: machine.records,
    }
}

impl<'a, 'c, 'p, R: Abort> Machine<'a, 'c, 'p, R> {
    fn need(&self, job: u8) -> u16 {
        self.rows
            .get(job as usize)
            .map_or(0, |(need, _)| *need as u16)
    }

    fn targets(&self, job: u8) -> &'static [u8] {
        self.rows
            .get(job as usize)
            .map_or(&[], |(_, targets)| targets)
    }

    // What the GRANTs leave of a job's need where they count it down.
    fn need_left(&self, job: u8) -> u16 {
        self.need(job)
            .saturating_sub(self.records[job as usize].granted)
    }

    // Whether a job that spreads takes itself for active.
    fn spreads_as_active(&self, job: u8) -> bool {
        match self.variant {
            Variant::NeedCountedDown => self.need_left(job) == 0,
            Variant::Exact | Variant::EarlyAck => self.need(job) == 0,
        }
    }

    // Whether one GRANT more frees a job.
    fn is_freed_next(&self, job: u8) -> bool {
        let own = &self.records[job as usize];
        match self.variant {
            Variant::NeedCountedDown => self.need_left(job) == 1,
            Variant::Exact | Variant::EarlyAck => {
                !own.free && own.granted.wrapping_add(1) == self.need(job)
            }
        }
    }

    fn verdict(&self) -> Verdict {
        if self.records[self.initiator as usize].free {
            Verdict::Free
        } else {
            Verdict::Stuck
        }
    }

    fn put(&mut self, kind: Kind, wait: Wait) {
        assert!(self.rt; self.messages.put(Message { kind, wait }).is_ok());
    }

    fn spread(&mut self, job: u8) {
        self.records[job as usize].notified = true;
        for target in self.targets(job) {
            let own = &mut self.records[job as usize];
            own.dones_due = own.dones_due.wrapping_add(1);
            self.put(
                Kind::Notify,
                Wait {
                    waiter: job,
                    target: *target,
                },
            );
        }
        if self.spreads_as_active(job) {
            self.let_go(job);
        }
    }

    fn let_go(&mut self, job: u8) {
        self.records[job as usize].free = true;
        self.records[job as usize].acks_due = 0;
        for waiter in 0..=u8::MAX {
            if self.targets(waiter).contains(&job) {
                let own = &mut self.records[job as usize];
                own.acks_due = own.acks_due.wrapping_add(1);
                self.put(
                    Kind::Grant,
                    Wait {
                        waiter,
                        target: job,
                    },
                );
            }
        }
    }

    fn close_notice(&mut self, job: u8) {
        if job == self.initiator {
            self.closing = Some(Closing {
                verdict: self.verdict(),
                waiting: self.messages.waiting(),
            });
        }
        if let Some(wait) = self.records[job as usize].notified_by {
            self.put(Kind::Done, wait);
        }
    }

    fn receive(&mut self, message: Message) {
        let Message { kind, wait } = message;
        match kind {
            Kind::Notify => self.receive_notify(wait),
            Kind::Done => self.receive_done(wait),
            Kind::Grant => self.receive_grant(wait),
            Kind::Ack => self.receive_ack(wait),
        }
    }

    fn receive_notify(&mut self, wait: Wait) {
        let own = &mut self.records[wait.target as usize];
        if own.notified {
            self.put(Kind::Done, wait);
        } else {
            own.notified_by = Some(wait);
            self.spread(wait.target);
        }
    }

    fn receive_done(&mut self, wait: Wait) {
        let own = &mut self.records[wait.waiter as usize];
        own.dones_due = own.dones_due.wrapping_sub(1);
        if own.dones_due == 0 {
            self.close_notice(wait.waiter);
        }
    }

    fn receive_grant(&mut self, wait: Wait) {
        let job = wait.waiter;
        let is_freed = self.is_freed_next(job);
        let own = &mut self.records[job as usize];
        own.granted = own.granted.wrapping_add(1);
        if !is_freed {
            self.put(Kind::Ack, wait);
            return;
        }
        own.freed_by = Some(wait);
        self.let_go(job);
        if self.variant == Variant::EarlyAck || self.records[job as usize].acks_due == 0 {
            self.put(Kind::Ack, wait);
        }
    }

    // An ACK too many, which only a mistake brings, wraps the number of those that are due.
    fn receive_ack(&mut self, wait: Wait) {
        let need = self.need(wait.target);
        let own = &mut self.records[wait.target as usize];
        own.acks_due = own.acks_due.wrapping_sub(1);
        if own.acks_due != 0 {
            return;
        }
        let freed_by = own.freed_by;
        if need == 0 {
            self.close_notice(wait.target);
        } else if let Some(wait) = freed_by
            && self.variant != Variant::EarlyAck
        {
            self.put(Kind::Ack, wait);
        }
    }
}
