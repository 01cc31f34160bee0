// Writing, opening, keeping and cancelling.
ghost use Rattle.std.specs.Prelude.{◌≡◌, ◌+◌, ◌≤◌, not, length, take, drop, is_ok, if◌then◌else◌, Some, None, Ok, Err, slice_index_or};
ghost use Rattle.containers.specs.Held.{holding};
ghost use Rattle.groups.specs.declared.store.TheConstants.{DEPTH_MAX, ROWS};
ghost use Rattle.groups.specs.State.{summary, full, can_open, written, opened, kept, cancelled, rolled_back, undo_record, with_undo_record};
ghost use Rattle.groups.specs.Beginning.{fresh};
ghost use Rattle.groups.specs.TicketIds.{fits, ended_as};

use crate::store::{Ending, Groups, ROWS, TRAIL_MAX, TicketId, TrailFull, UndoRecord};
use arrayvec::ArrayVec;
use containers::{Container, Stack};

impl<'a, P: Copy> Groups<'a, P> {
    /// Every row is `row`, and no group is open. The undo records will lie in the lent memory: as many as it has places for, at most 1,024.
    pub fn new(row: P, mark: u16, memory: &'a mut [UndoRecord<P>]) -> Groups<'a, P>
        ensures { result ≡ fresh ROWS row mark (length memory.old) }
    {
        Groups {
            rows: [row; ROWS],
            trail: Stack::new(memory),
            starts: ArrayVec::new(),
            mark,
        }
    }

    /// The row of a job.
    pub fn row(&self, job: u8) -> P
        ensures { (d : P) → result ≡ slice_index_or self.now.rows job d }
    {
        // A row of any copyable type is read and written through a borrow of the rows: the check has no rule for `self.rows[..]`.
        let rows = &self.rows;
        rows[job as usize]
    }

    /// All rows, by the number of their job.
    pub fn rows(&self) -> &[P; ROWS]
        ensures { result.now ≡ self.now.rows }
    {
        &self.rows
    }

    /// How many groups are open, from 0 to 8.
    pub fn depth(&self) -> usize
        ensures value { result ≡ length self.now.groups }
        ensures bound { result ≤ DEPTH_MAX }
    {
        self.starts.len()
    }

    /// Writes the row of a job, and inside a group first what stands there to the trail; refused with [`TrailFull`], and nothing changed,
    /// if that is full.
    pub fn write(&mut self, job: u8, row: P) -> Result<(), TrailFull>
        ensures value { is_ok result ≡ not (full self.old.trail_room (summary self.old)) }
        ensures after { self.new ≡ (if is_ok result then written self.old job row else self.old) }
    {
        self.record_undo(job)?;
        let rows = &mut self.rows;
        rows[job as usize] = row;
        Ok(())
    }

    // Writes what stands in the row of a job to the trail, inside a group; refused, with nothing changed, if that is full.
    fn record_undo(&mut self, job: u8) -> Result<(), TrailFull>
        ensures value { is_ok result ≡ not (full self.old.trail_room (summary self.old)) }
        ensures after { (d : P) → self.new ≡ (if is_ok result then record self.old { groups = with_undo_record self.old.groups (undo_record self.old.rows job d) } else self.old) }
    {
        if self.starts.is_empty() {
            return Ok(());
        }
        if self.trail.len() >= TRAIL_MAX {
            return Err(TrailFull);
        }
        let row = self.row(job);
        self.trail.put(UndoRecord { job, row })?;
        Ok(())
    }

    /// Opens a group inside the others, and answers its ticket id; none, and nothing changed, if eight are open.
    pub fn open(&mut self) -> Option<TicketId>
        ensures value { result ≡ (if can_open (summary self.old) then Some (record { mark = self.old.mark; depth = (summary self.old).depth + 1 }) else None) }
        ensures after { self.new ≡ (if can_open (summary self.old) then opened self.old else self.old) }
    {
        if self.starts.is_full() {
            return None;
        }
        self.starts.push(self.trail.len());
        let depth = self.depth() as u8;
        Some(TicketId {
            mark: self.mark,
            depth,
        })
    }

    /// The ticket id of the innermost group; where no group is open, it is no group's.
    pub fn innermost(&self) -> TicketId
        ensures { result ≡ record { mark = self.now.mark; depth = length self.now.groups } }
    {
        TicketId {
            mark: self.mark,
            depth: self.depth() as u8,
        }
    }

    // The ticket id is the innermost group's.
    fn fits(&self, id: TicketId) -> bool
        ensures { result ≡ fits self.now id }
    {
        let depth = self.depth();
        id.mark == self.mark && id.depth as usize == depth && depth > 0
    }

    /// Ends the innermost group: its writes stay, or are undone. A ticket id that is not that group's comes back, and nothing changes.
    pub fn end(&mut self, ending: Ending, id: TicketId) -> Result<(), TicketId>
        ensures value { result ≡ (if fits self.old id then Ok tt else Err id) }
        ensures after { self.new ≡ (if fits self.old id then ended_as ending self.old else self.old) }
    {
        if !self.fits(id) {
            return Err(id);
        }
        match ending {
            Ending::Keep => self.keep_innermost(),
            Ending::Cancel => self.cancel_innermost(),
        }
        Ok(())
    }

    // The innermost group's records go to the next group outwards; outside of groups there are none.
    fn keep_innermost(&mut self)
        ensures { self.new ≡ kept self.old }
    {
        let _ = self.starts.pop();
        if self.starts.is_empty() {
            self.trail.clear();
        }
    }

    // Puts back what the innermost group has written over.
    fn cancel_innermost(&mut self)
        ensures { self.new ≡ cancelled self.old }
    {
        let start = self.starts.pop().unwrap_or(0);
        roll_back(&mut self.rows, &mut self.trail, start);
    }
}

// Puts the undo records from a start on back, the newest first, and frees their records.
fn roll_back<P: Copy>(rows: &mut [P; ROWS], trail: &mut Stack<'_, UndoRecord<P>>, start: usize)
    ensures rows { rows.new ≡ rolled_back rows.old (drop start trail.old.items) }
    ensures trail { trail.new ≡ holding trail.old (take start trail.old.items) }
{
    let mut old = UndoRecord {
        job: 0,
        row: rows[0],
    };
    while trail.len() > start {
        let _ = trail.take(&mut old);
        rows[old.job as usize] = old.row;
    }
}
