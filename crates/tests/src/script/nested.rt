// Groups of a script, and those of its book.
ghost use Rattle.std.specs.Prelude.{◌≡◌, length};
ghost use Rattle.book.specs.CallSteps.{SameGroups};

use crate::assembler::Command::{Bytes, Cancel, Detect, Grant, Keep, Open, Request};
use crate::assembler::{Command, Commands};
use crate::common::*;
use crate::script::ends::End::{Finished, Stopped};
use crate::script::ends::*;
use book::{Book, DEPTH_MAX};
use std::process::Abort;

// In a book with no group, and in one with a group of its own.
const ALONE: [(Commands, End); 4] = [
    (&[Open; 8], Finished(8, 8, 0)),
    (&[Open; 9], Stopped(8, 1, 8, 8, 0)),
    (
        &[Open, Open, Open, Open, Open, Open, Open, Open, Open, Keep],
        Stopped(8, 1, 8, 8, 0),
    ),
    (
        &[Open, Open, Open, Open, Open, Open, Open, Open, Cancel, Open],
        Finished(10, 8, 0),
    ),
];

const INSIDE: [(Commands, End); 2] = [
    (&[Open; 7], Finished(7, 7, 0)),
    (&[Open; 8], Stopped(8, 1, 7, 7, 0)),
];

// All eight are cancelled. A group of the book's own is among the eight, and stays open.
#[test]
fn ninth_opening_is_too_deep(rt: HostRuntime) {
    let mut memory = trail::<1>();
    let mut book = Book::new(JOBS, MARK, &mut memory);
    for (script, end) in ALONE {
        ends(&rt, &mut book, script, ENOUGH, end, &[]);
    }
    for (script, end) in INSIDE {
        let Ok(ticket) = book.open() else {
            panic!(rt; "no group was opened");
        };
        ends(&rt, &mut book, script, ENOUGH, end, &[]);
        book.keep(ticket).unwrap();
    }
}

// Opens so many groups with tickets of its own, inside which a script's first command is stopped.
fn full_book_is_too_deep(rt: &impl Abort, book: &mut Book, more: u8)
    ensures groups { SameGroups book.old book.new }
{
    if more == 0 {
        ends(rt, book, &[Open], ENOUGH, Stopped(8, 1, 0, 0, 0), &[]);
        return;
    }
    let Ok(ticket) = book.open() else {
        panic!(rt; "no group was opened");
    };
    full_book_is_too_deep(rt, book, more - 1);
    book.keep(ticket).unwrap();
}

#[test]
fn ninth_opening_is_too_deep_at_once(rt: HostRuntime) {
    let mut memory = trail::<1>();
    let mut book = Book::new(JOBS, MARK, &mut memory);
    full_book_is_too_deep(&rt, &mut book, DEPTH_MAX as u8);
}

// Job 0 comes to wait for 1, and job 2 for 3; and 1 grants to 0.
const REQUEST_0: Command<'static> = Request(0, 1, &[1]);

const REQUEST_2: Command<'static> = Request(2, 1, &[3]);

const GRANT: Command<'static> = Grant(1, 0);

// A trail of one record: outside of groups no edit takes it; a kept group hands it on, and a cancelled one frees it.
const ONE_RECORD: [(Commands, End); 5] = [
    (&[REQUEST_0, REQUEST_2], Finished(2, 0, 0)),
    (&[Open, REQUEST_0, REQUEST_2], Stopped(5, 1, 6, 2, 0)),
    (&[Open, REQUEST_0, GRANT], Stopped(5, 1, 6, 2, 0)),
    (
        &[Open, Open, REQUEST_0, Keep, REQUEST_2],
        Stopped(5, 1, 8, 4, 0),
    ),
    (
        &[Open, Open, REQUEST_0, Cancel, REQUEST_2],
        Finished(5, 1, 0),
    ),
];

#[test]
fn groups_share_the_trail(rt: HostRuntime) {
    for (script, end) in ONE_RECORD {
        let mut memory = trail::<1>();
        let mut book = Book::new(JOBS, MARK, &mut memory);
        ends(&rt, &mut book, script, ENOUGH, end, &[]);
    }
}

// A byte that is no command's letter, and the beginning of a request.
const STRANGE: Command<'static> = Bytes(b"X");

const CUT_OFF: Command<'static> = Bytes(b"R");

// How scripts end in a book in which 0 waits for 1. Here 0 still waits afterwards, and 2 is active: what was done in a group is taken back.
const TAKEN_BACK: [(Commands, End); 9] = [
    (&[Open; 3], Finished(3, 3, 0)),
    (&[Open, Open, Open, STRANGE], Stopped(14, 0, 3, 3, 0)),
    (&[Open, GRANT, Open, REQUEST_2], Finished(4, 2, 0)),
    (
        &[Open, GRANT, Open, REQUEST_2, STRANGE],
        Stopped(14, 0, 10, 4, 0),
    ),
    (&[Open, GRANT, Open, REQUEST_2, Keep], Finished(5, 1, 0)),
    (
        &[Open, GRANT, Open, REQUEST_2, Keep, STRANGE],
        Stopped(14, 0, 11, 5, 0),
    ),
    (&[Open, GRANT, CUT_OFF], Stopped(15, 0, 4, 2, 0)),
    (&[Open, REQUEST_2, REQUEST_2], Stopped(2, 1, 6, 2, 0)),
    (
        &[Open, REQUEST_2, Detect(2), Detect(4)],
        Stopped(1, 2, 8, 3, 4),
    ),
];

// Here 2 waits for 3 as well: it was asked for outside of all groups.
const ASKED: [(Commands, End); 2] = [
    (&[REQUEST_2, Open, GRANT], Finished(3, 1, 0)),
    (&[REQUEST_2, Open, GRANT, STRANGE], Stopped(14, 0, 9, 3, 0)),
];

// And here 0 is active: its group was kept.
const GRANTED: [(Commands, End); 2] = [
    (&[Open, GRANT, Keep, Open, REQUEST_2], Finished(5, 1, 0)),
    (&[Open, GRANT, Keep, Keep], Stopped(16, 0, 5, 3, 0)),
];

// A script ends so, and leaves jobs 0 and 2 these rows.
fn leaves(rt: &impl Abort, script: &[Command], end: End, zero: Row, two: Row) {
    let mut memory = trail::<4>();
    let mut book = Book::new(JOBS, MARK, &mut memory);
    assert!(rt; book.request(0, 1, &[1]).is_ok());
    ends(rt, &mut book, script, ENOUGH, end, &[2, 0, 0, 4]);
    assert!(rt; is_row(&book, 0, zero.0, zero.1), "at {script:?}");
    assert!(rt; is_row(&book, 2, two.0, two.1), "at {script:?}");
}

#[test]
fn groups_left_open_are_cancelled(rt: HostRuntime) {
    for (script, end) in TAKEN_BACK {
        leaves(&rt, script, end, (1, &[1]), ACTIVE);
    }
    for (script, end) in ASKED {
        leaves(&rt, script, end, (1, &[1]), (1, &[3]));
    }
    for (script, end) in GRANTED {
        leaves(&rt, script, end, ACTIVE, ACTIVE);
    }
}

// Neither a keeping nor a cancelling in the script ends it: it can still be cancelled, and with it what the script did.
#[test]
fn group_of_the_book_stays_open(rt: HostRuntime) {
    for ending in [Keep, Cancel] {
        let script = [Open, REQUEST_2, Keep, ending];
        let mut memory = trail::<4>();
        let mut book = Book::new(JOBS, MARK, &mut memory);
        let ticket = book.open().unwrap();
        let asked = book.request(0, 1, &[1]).is_ok();
        let end = Stopped(16, 0, 7, 3, 0);
        ends(&rt, &mut book, &script, ENOUGH, end, &[]);
        let inside = is_row(&book, 0, 1, &[1]) && is_row(&book, 2, 1, &[3]);
        book.cancel(ticket).unwrap();
        assert!(rt; asked && inside, "at {script:?}");
        assert!(rt;
            is_row(&book, 0, 0, &[]) && is_row(&book, 2, 0, &[]),
            "at {script:?}"
        );
    }
}
