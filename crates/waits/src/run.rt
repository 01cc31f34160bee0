// Running a script on a new book.
ghost use Rattle.std.specs.Prelude.{◌≡◌, ◌≤◌, length};
ghost use Rattle.wait_book.specs.ScriptRuns.{script_written};
ghost use Rattle.waits.specs.Outcome.{ComesOut};

use wait_book::{
    Book, CAPACITY_PER_WAIT, FinishedScript, JOBS_MAX, Message, QueueCarrier, RunRecord,
    StoppedScript, TRAIL_MAX, UndoRecord, WAITS_MAX,
};

// As many jobs as a book can have, and as many undo records as a trail can.
const PROGRAM_JOBS: usize = JOBS_MAX;

const PROGRAM_TRAIL: usize = TRAIL_MAX;

// Room for the messages of a detection, however many waits there are.
const PROGRAM_QUEUE: usize = CAPACITY_PER_WAIT * WAITS_MAX;

/// How many bytes a script can write. Enough for the longest script: it has a detection for every two bytes at most, and each writes four.
pub const PROGRAM_ANSWERS: usize = 16_384;

// The mark of the book's tickets: any, since a script hands none out.
const MARK: u16 = 7;

/// Runs a script on a new book, and tells how it ends; what it writes lies in the first of the answer bytes.
pub fn run(script: &[u8], answers: &mut [u8]) -> Result<FinishedScript, StoppedScript>
    ensures comes_out { ComesOut script.now answers.old result answers.new }
    ensures written { script_written result ≤ length answers.new }
{
    let mut trail = [UndoRecord::default(); PROGRAM_TRAIL];
    let mut book = Book::new(PROGRAM_JOBS, MARK, &mut trail);
    let mut records = [RunRecord::default(); PROGRAM_JOBS];
    let mut cells = [Message::default(); PROGRAM_QUEUE];
    let mut carrier = QueueCarrier::new(&mut cells);
    book.run_script(script, &mut records, &mut carrier, answers)
}
