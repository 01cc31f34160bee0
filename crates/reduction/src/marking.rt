// A reduction at work: the marks of a table's jobs, and what those not marked lack.
ghost use Rattle.std.specs.Prelude.{◌≡◌};
ghost use Rattle.containers.specs.Held.{vacant};
ghost use Rattle.tables.specs.declared.table.TheConstants.{JOBS_MAX};
ghost use Rattle.reduction.specs.Work.{IsSaturated, IsCurrent, CanBeLoosened, CanBeLowered, steps_left, with_loose, lowered};

use crate::marks::{LOOSE, STUCK};
use containers::{Container, Queue};
use std::marker::Model;
use tables::{Indexed, JOB_WORDS, JOBS_MAX, Table, WORD_JOBS};

// Marked jobs are queued until their waiters have been looked at; no job is marked twice, so that the queue has room for each.
// A job that is not marked has a counter of the targets that it lacks, which each target lowers once.
// The marks are its own and are copied out at the end: what a lent slice ends as, no contract of a type with a model can tell.
#[derive(Drop)]
pub(crate) struct Marking<'a, 'q, T: Table> {
    table: &'a Indexed<'a, T>,
    pub(crate) marks: [u8; JOBS_MAX],
    lacking: [u8; JOBS_MAX],
    pub(crate) queue: Queue<'q, u8>,
}

impl<'a, 'q, T: Table> Model for Marking<'a, 'q, T> {
    ghost use Rattle.std.specs.Prelude.{◌≡◌};
    ghost use Rattle.tables.specs.declared.table.TheConstants.{JOBS_MAX};
    ghost use Rattle.reduction.specs.Work.{Work, SoundMarks};

    ghost Value = { Work };

    ghost view = { λ m. record { rows = T.Table.rows m.table.now.table.now; marks = m.marks; lacking = m.lacking; queue = m.queue.items } };

    ghost invariant = { λ m. SoundMarks (record { rows = T.Table.rows m.table.now.table.now; marks = m.marks; lacking = m.lacking; queue = m.queue.items })
        × (m.queue.capacity ≡ JOBS_MAX) };
}

impl<'a, 'q, T: Table> Marking<'a, 'q, T> {
    // Marks the active jobs, and queues them; each other lacks all that it needs.
    pub(crate) fn begin(table: &'a Indexed<'a, T>, queue: Queue<'q, u8>) -> Marking<'a, 'q, T>
        requires { queue ≡ vacant JOBS_MAX }
        ensures rows { result.rows ≡ T.Table.rows table.now.table.now }
        ensures saturated { IsSaturated result }
    {
        let mut marking = Marking {
            table,
            marks: [STUCK; JOBS_MAX],
            lacking: [0; JOBS_MAX],
            queue,
        };
        for job in 0..table.jobs() {
            let need = table.need(job);
            if need == 0 {
                marking.loosen(job);
            } else {
                marking.lacking[job] = need;
            }
        }
        marking
    }

    // Looks at the waiters of a job: each lacks a target less, and one that then lacks none is marked and queued.
    pub(crate) fn mark_waiters(&mut self, job: usize)
        requires { IsCurrent self.old job }
        ensures rows { self.new.rows ≡ self.old.rows }
        ensures saturated { IsSaturated self.new }
        ensures steps { steps_left self.new ≡ steps_left self.old }
    {
        let table = self.table;
        for word in 0..JOB_WORDS {
            let mut rest = table.waiters_in_word(job, word);
            while rest != 0 {
                let place = rest.trailing_zeros() as usize;
                self.lower(word * WORD_JOBS + place);
                rest &= !(1 << place);
            }
        }
    }

    // A target of a job is done: the job lacks one less, and where it then lacks none, it is marked and queued.
    fn lower(&mut self, job: usize)
        requires { CanBeLowered self.old job }
        ensures { self.new ≡ lowered self.old job }
    {
        if self.marks[job] == LOOSE {
            return;
        }
        self.lacking[job] -= 1;
        if self.lacking[job] == 0 {
            self.loosen(job);
        }
    }

    // Marks a job that is not marked yet, and queues it.
    fn loosen(&mut self, job: usize)
        requires { CanBeLoosened self.old job }
        ensures { self.new ≡ with_loose self.old job }
    {
        self.marks[job] = LOOSE;
        self.queue.put(job as u8).unwrap();
    }
}
