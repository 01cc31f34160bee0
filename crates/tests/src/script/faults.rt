// Each fault at the first, a middle and the last command.
ghost use Rattle.std.specs.Prelude.{◌≡◌, length};
ghost use Rattle.book.specs.CallSteps.{SameGroups};

use crate::assembler::Command::{Bytes, Cancel, Detect, Grant, Keep, Open, Request};
use crate::assembler::{Command, assembled};
use crate::common::*;
use crate::script::ends::End::{Stopped, StoppedAt};
use crate::script::ends::*;
use book::Book;
use std::process::Abort;

// One target more than a row can have.
const SEVENTEEN: &[u8] = &[1, 2, 3, 4, 5, 6, 7, 8, 9, 10, 11, 12, 13, 14, 15, 16, 17];

// A command that a fault stops, and the fault: its number, its layer, and its value.
type Stopping<'s> = (Command<'s>, u8, u8, Option<usize>);

// The command comes first, between others, and last: those before it are made, and those after it are not. The detections are from job
// 2, which nothing waits for: each has two bytes, and writes four.
fn stops_anywhere(rt: &impl Abort, book: &mut Book, stopping: Stopping)
    ensures groups { SameGroups book.old book.new }
{
    let (command, number, layer, value) = stopping;
    // a script; the offset and the index of the command; and how many bytes are written
    let places = [
        ([command, Detect(2), Detect(2)], 0, 0, 0),
        ([Detect(2), command, Open], 2, 1, 4),
        ([Detect(2), Detect(2), command], 4, 2, 8),
    ];
    for (script, offset, index, written) in places {
        let end = match value {
            None => Stopped(number, layer, offset, index, written),
            Some(value) => StoppedAt(value, number, layer, offset, index, written),
        };
        let answers = [2, 0, 0, 0, 2, 0, 0, 0];
        ends(rt, book, &script, ENOUGH, end, &answers);
    }
}

// In a book in which 1 waits for 0, and a group of the book's own without a trail is open.
const STOPPED: [Stopping<'static>; 21] = [
    (Bytes(b"X"), 14, 0, None),
    (Bytes(b"r\0\x01\x01\x01"), 14, 0, None),
    (Bytes(b"\0"), 14, 0, None),
    (Bytes(b"\xFF"), 14, 0, None),
    (Keep, 16, 0, None),
    (Cancel, 16, 0, None),
    (Request(4, 1, &[0]), 1, 1, None),
    (Grant(4, 1), 1, 1, None),
    (Grant(0, 4), 1, 1, None),
    (Request(1, 1, &[2]), 2, 1, None),
    (Request(0, 1, &[]), 3, 1, None),
    (Request(0, 0, &[1]), 3, 1, None),
    (Request(0, 2, &[1]), 3, 1, None),
    (Request(0, 1, SEVENTEEN), 3, 1, None),
    (Request(0, 1, &[4, 0]), 4, 1, Some(0)),
    (Request(0, 1, &[1, 3, 2]), 4, 1, Some(2)),
    (Request(0, 1, &[1]), 5, 1, None),
    (Grant(0, 1), 5, 1, None),
    (Grant(1, 0), 6, 1, None),
    (Grant(0, 2), 7, 1, None),
    (Detect(4), 1, 2, None),
];

#[test]
fn first_fault_stops_a_script(rt: HostRuntime) {
    let mut memory = trail::<1>();
    let mut book = Book::new(JOBS, MARK, &mut memory[..0]);
    assert!(rt; book.request(1, 1, &[0]).is_ok());
    for stopping in STOPPED {
        let Ok(ticket) = book.open() else {
            panic!(rt; "no group was opened");
        };
        stops_anywhere(&rt, &mut book, stopping);
        book.keep(ticket).unwrap();
    }
    assert!(rt; is_row(&book, 0, 0, &[]) && is_row(&book, 1, 1, &[0]));
}

// A command that the script's end cuts off after each of its bytes but the last.
fn is_cut_off_everywhere(rt: &impl Abort, command: Command) {
    let whole = assembled(rt, &[command]);
    let bytes = whole.as_slice();
    for length in 1..bytes.len() {
        let part = Bytes(&bytes[..length]);
        let mut memory = trail::<1>();
        let mut book = Book::new(JOBS, MARK, &mut memory);
        let first = Stopped(15, 0, 0, 0, 0);
        ends(rt, &mut book, &[part], ENOUGH, first, &[]);
        let script = [Detect(2), Open, Keep, part];
        let last = Stopped(15, 0, 4, 3, 4);
        ends(rt, &mut book, &script, ENOUGH, last, &[2, 0, 0, 0]);
        assert!(rt; is_row(&book, 0, 0, &[]), "at {part:?}");
    }
}

// Also where the call would be refused: requests for 17 targets and for 255, and jobs that are not there.
#[test]
fn script_that_ends_inside_a_command_is_cut_off(rt: HostRuntime) {
    let commands = [
        Request(0, 2, &[1, 2, 3]),
        Request(4, 1, &[0]),
        Request(0, 1, SEVENTEEN),
        Bytes(b"R\0\x01\xFFOKOKOK"),
        Grant(4, 0),
        Detect(4),
    ];
    for command in commands {
        is_cut_off_everywhere(&rt, command);
    }
}
