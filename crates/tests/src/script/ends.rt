// Scripts run on a book, with their ends told by numbers, as the rules tell them.
ghost use Rattle.std.specs.Prelude.{◌≡◌, length};
ghost use Rattle.book.specs.CallSteps.{SameGroups};

use crate::assembler::{Command, assembled};
use crate::common::*;
use book::{Book, FinishedScript, StoppedScript, Table};
use carriers::{Carrier, QueueCarrier};
use detection::RunRecord;
use std::process::Abort;

/// How many jobs the books have.
pub const JOBS: usize = 4;

/// Room for two messages on each wait that so many jobs can have.
const CELLS: usize = 24;

/// How many answer bytes are lent at most.
pub const SPACE: usize = 16;

/// How a script ends. Without names, so that a case of a table fits into a line:
/// the commands carried out, the groups cancelled at the end, and the bytes written;
/// the number and the layer of the fault, the offset, the index, and the bytes written;
/// the same of a fault with a value, which comes first.
#[derive(Clone, Copy, Drop, PartialEq, Eq, Debug)]
pub enum End {
    Finished(usize, usize, usize),
    Stopped(u8, u8, usize, usize, usize),
    StoppedAt(usize, u8, u8, usize, usize, usize),
}

impl End {
    /// How many bytes are written.
    fn written(self) -> usize {
        match self {
            End::Finished(_, _, written)
            | End::Stopped(_, _, _, _, written)
            | End::StoppedAt(_, _, _, _, _, written) => written,
        }
    }
}

impl From<Result<FinishedScript, StoppedScript>> for End {
    fn from(answer: Result<FinishedScript, StoppedScript>) -> End {
        match answer {
            Ok(finished) => End::Finished(finished.commands, finished.cancelled, finished.written),
            Err(
                StoppedScript {
                    fault,
                    offset,
                    index,
                    written,
                },
            ) => match fault.value() {
                None => End::Stopped(fault.number(), fault.layer(), offset, index, written),
                Some(value) => {
                    End::StoppedAt(value, fault.number(), fault.layer(), offset, index, written)
                }
            },
        }
    }
}

/// What is lent to a script: so many records, cells and answer bytes; and how many messages wait in the carrier.
#[derive(Clone, Copy)]
pub struct Lending {
    pub records: usize,
    pub cells: usize,
    pub waiting: usize,
    pub space: usize,
}

pub const ENOUGH: Lending = Lending {
    records: JOBS,
    cells: CELLS,
    waiting: 0,
    space: SPACE,
};

/// What a script leaves of that, and how it ends.
#[derive(Drop)]
pub struct Left {
    pub end: End,
    pub bytes: [u8; SPACE],
    pub records: [RunRecord; JOBS],
    pub waiting: usize,
    pub handed_out: u32,
}

/// Runs a script.
pub fn run(book: &mut Book, script: &[u8], lending: Lending) -> Left
    ensures groups { SameGroups book.old book.new }
{
    let mut bytes = [UNTOUCHED; SPACE];
    let mut records = untouched::<JOBS>();
    let mut cells = blank_cells::<CELLS>();
    let mut carrier = QueueCarrier::new(&mut cells[..lending.cells.min(CELLS)]);
    for _ in 0..lending.waiting {
        let _ = carrier.put(blank_message());
    }
    let answer = book.run_script(
        script,
        &mut records[..lending.records.min(JOBS)],
        &mut carrier,
        &mut bytes[..lending.space.min(SPACE)],
    );
    Left {
        end: End::from(answer),
        bytes,
        records,
        waiting: carrier.waiting(),
        handed_out: carrier.handed_out(),
    }
}

/// The script ends so, has written the first of these answers, as many as its end tells, and no other byte, and leaves the depth as it
/// was.
pub fn ends(
    rt: &impl Abort,
    book: &mut Book,
    script: &[Command],
    lending: Lending,
    end: End,
    answers: &[u8],
)
    ensures groups { SameGroups book.old book.new }
{
    let depth = book.depth();
    let left = run(book, assembled(rt, script).as_slice(), lending);
    assert_eq!(rt; left.end, end, "at {script:?}");
    let written = left.bytes.iter().take(end.written());
    assert!(rt;
        written.eq(answers.iter().take(end.written())),
        "at {script:?}"
    );
    let mut rest = left.bytes.iter().skip(end.written());
    assert!(rt; rest.all(|byte| *byte == UNTOUCHED), "at {script:?}");
    assert_eq!(rt; book.depth(), depth, "at {script:?}");
}
