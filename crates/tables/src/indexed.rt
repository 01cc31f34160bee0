// A table whose waiters are found by an index: a bit for each two jobs, set in one pass over the rows.
ghost use Rattle.std.specs.Prelude.{◌≡◌, ◌<◌, ◌≤◌, ◌^◌, length};
ghost use Rattle.rows.specs.Waiting.{at};
ghost use Rattle.tables.specs.Waits.{waits as waits_of};
ghost use Rattle.tables.specs.declared.table.TheConstants.{WAITS_MAX, JOBS_MAX};
ghost use Rattle.tables.specs.BitMatrix.{MarksWaits, MarkedToo, RowMarked, ShowsWaiters, FirstUpTo, word_end};

use crate::table::{JOBS_MAX, Table, TwoWayTable};

/// For how many jobs a word has a bit.
pub const WORD_JOBS: usize = 64;

/// How many words a job has: a bit for each that may wait for it.
pub const JOB_WORDS: usize = 4;

/// How many words an index takes.
pub const INDEX_WORDS: usize = JOBS_MAX * JOB_WORDS;

/// A table beside its index, in words that are lent: its waiters are found with no look at the rows, and its waits are counted already.
#[derive(Drop)]
pub struct Indexed<'a, T: Table> {
    table: &'a T,
    words: &'a [u64; INDEX_WORDS],
    waits: usize,
    ghost marked: { MarksWaits (T.Table.rows table.now) words.now },
    ghost counted: { waits ≡ waits_of (T.Table.rows table.now) },
}

impl<'a, T: Table> Indexed<'a, T> {
    /// Marks who waits for whom, and counts the waits, in one pass over the rows; what the words held before is lost.
    pub fn new(table: &'a T, words: &'a mut [u64; INDEX_WORDS]) -> Indexed<'a, T>
        ensures rows { T.Table.rows result.table.now ≡ T.Table.rows table.now }
        ensures marked { MarksWaits (T.Table.rows table.now) result.words.now }
        ensures waits { result.waits ≡ waits_of (T.Table.rows table.now) }
    {
        let waits = mark_waits(table, words);
        Indexed {
            table,
            words,
            waits,
        }
    }

    /// Which of the 64 jobs that a word is for wait for a job, the first by the lowest bit. Where there is no such job or word, none does.
    pub fn waiters_in_word(&self, job: usize, word: usize) -> u64
        ensures { ShowsWaiters (T.Table.rows self.now.table.now) job word result }
    {
        if job >= JOBS_MAX || word >= JOB_WORDS {
            return 0;
        }
        self.words[job * JOB_WORDS + word]
    }

    // The first waiter of a job from a number on, as far as one word tells.
    fn first_in_word(&self, job: usize, from: usize) -> Option<usize>
        requires { (job < JOBS_MAX) × (from < JOBS_MAX) }
        ensures { FirstUpTo (T.Table.rows self.now.table.now) job from (word_end from) result }
    {
        let whole = self.words[job * JOB_WORDS + from / WORD_JOBS];
        let word = whole >> (from % WORD_JOBS);
        if word == 0 {
            None
        } else {
            Some(from + word.trailing_zeros() as usize)
        }
    }
}

impl<'a, T: Table> Table for Indexed<'a, T> {
    ghost rows = { λ i. T.rows i.table.now };

    fn jobs(&self) -> usize {
        self.table.jobs()
    }

    fn need(&self, job: usize) -> u8 {
        self.table.need(job)
    }

    fn target_count(&self, job: usize) -> usize {
        self.table.target_count(job)
    }

    fn target(&self, job: usize, place: usize) -> Option<u8> {
        self.table.target(job, place)
    }

    fn waits_for(&self, waiter: usize, job: usize) -> bool {
        self.table.waits_for(waiter, job)
    }

    fn wait_count(&self) -> usize {
        self.waits
    }
}

impl<'a, T: Table> TwoWayTable for Indexed<'a, T> {
    fn next_waiter(&self, job: usize, from: usize) -> Option<usize> {
        if job >= JOBS_MAX {
            return None;
        }
        let mut low = from;
        while low < JOBS_MAX {
            if let Some(waiter) = self.first_in_word(job, low) {
                return Some(waiter);
            }
            low = (low / WORD_JOBS + 1) * WORD_JOBS;
        }
        None
    }
}

// Marks who waits for whom, and tells how many waits there are.
fn mark_waits<T: Table>(table: &T, words: &mut [u64; INDEX_WORDS]) -> usize
    ensures marked { MarksWaits (T.Table.rows table.now) words.new }
    ensures value { result ≡ waits_of (T.Table.rows table.now) }
    ensures bound { result ≤ WAITS_MAX }
{
    words.fill(0);
    let mut waits = 0;
    for job in 0..table.jobs() {
        waits += mark_row(table, job, words);
    }
    waits
}

// Marks for whom one job waits, and tells for how many.
fn mark_row<T: Table>(table: &T, job: usize, words: &mut [u64; INDEX_WORDS]) -> usize
    requires job { job < JOBS_MAX }
    requires few { length (at (T.Table.rows table.now) job).targets < 2 ^ 16 }
    ensures count { result ≡ length (at (T.Table.rows table.now) job).targets }
    ensures marked { RowMarked (at (T.Table.rows table.now) job).targets job words.old words.new }
{
    let mut count = 0;
    for target in table.targets(job) {
        mark(words, target as usize, job);
        count += 1;
    }
    count
}

// Marks that a job waits for another.
fn mark(words: &mut [u64; INDEX_WORDS], target: usize, waiter: usize)
    requires { (target < JOBS_MAX) × (waiter < JOBS_MAX) }
    ensures { MarkedToo target waiter words.old words.new }
{
    words[target * JOB_WORDS + waiter / WORD_JOBS] |= 1 << (waiter % WORD_JOBS);
}
