// The largest table.
use crate::common::*;
use book::{Book, JOBS_MAX};
use reduction::reduce;

// Whether every byte is the expected one.
fn all_are(bytes: &[u8], expected: u8) -> bool {
    bytes.iter().all(|byte| *byte == expected)
}

// A chain of 256 jobs is loosened from its end; closed to a ring, all are stuck.
#[test]
fn chain_and_ring_of_256(rt: HostRuntime) {
    let mut memory = trail::<1>();
    let mut book = Book::new(JOBS_MAX, MARK, &mut memory);
    for job in 0..u8::MAX {
        assert!(rt; book.request(job as usize, 1, &[job + 1]).is_ok());
    }
    let mut bytes = [9; JOBS_MAX];
    assert!(rt; reduce(&book, &mut bytes).is_ok());
    assert!(rt; all_are(&bytes, 0));
    assert!(rt; book.request(JOBS_MAX - 1, 1, &[0]).is_ok());
    assert!(rt; reduce(&book, &mut bytes).is_ok());
    assert!(rt; all_are(&bytes, 1));
}
