// Scripts as long as can be, and longer.
use crate::common::*;
use crate::script::ends::End::{Finished, Stopped};
use crate::script::ends::*;
use book::{Book, Table};
use std::process::Abort;

// How many bytes the longest script has.
const LONGEST: usize = 8192;

// Groups that are opened and kept, so many bytes; and one byte more, an opening.
fn openings_and_keepings() -> [u8; LONGEST + 1] {
    let mut script = [b'O'; LONGEST + 1];
    for (place, letter) in script.iter_mut().enumerate() {
        if place % 2 == 1 {
            *letter = b'K';
        }
    }
    script
}

// Of so many of the bytes, on a new book: how the script ends, and what job 0 needs afterwards. No answer is written.
fn ends_with_need(rt: &impl Abort, bytes: &[u8], length: usize, end: End, need: u8) {
    let script = &bytes[..length.min(bytes.len())];
    let mut memory = trail::<1>();
    let mut book = Book::new(JOBS, MARK, &mut memory);
    let left = run(&mut book, script, ENOUGH);
    assert_eq!(rt; left.end, end);
    assert_eq!(rt; left.bytes, [UNTOUCHED; SPACE]);
    assert_eq!(rt; book.depth(), 0);
    assert_eq!(rt; book.need(0), need);
}

// Of a script that is too long no command is made. In one that is not, a command that is stopped late has the others before it made.
#[test]
fn longest_script_is_carried_out(rt: HostRuntime) {
    const LAST: usize = LONGEST - 1;
    const LONGER: usize = LONGEST + 1;
    let too_long = Stopped(13, 0, 0, 0, 0);
    let finished = Finished(LONGEST, 0, 0);
    let at_the_last = Stopped(14, 0, LAST, LAST, 0);
    let mut bytes = openings_and_keepings();
    ends_with_need(&rt, &bytes, LONGEST, finished, 0);
    ends_with_need(&rt, &bytes, LONGER, too_long, 0);
    bytes[LAST] = b'X';
    ends_with_need(&rt, &bytes, LONGEST, at_the_last, 0);
    bytes[..5].copy_from_slice(b"R\0\x01\x01\x01");
    ends_with_need(&rt, &bytes, LONGER, too_long, 0);
    ends_with_need(&rt, &bytes, LONGEST, Stopped(16, 0, 5, 1, 0), 1);
}
