// How many jobs a new book has.
use crate::common::*;
use book::{Book, Table};

#[test]
fn has_the_jobs_asked_for(rt: HostRuntime) {
    // jobs asked for, and jobs of the book
    for (asked, jobs) in [
        (0, 0),
        (1, 1),
        (2, 2),
        (255, 255),
        (256, 256),
        (257, 0),
        (65536, 0),
    ] {
        let mut memory = trail::<1>();
        let mut book = Book::new(asked, MARK, &mut memory);
        assert_eq!(rt; book.jobs(), jobs);
        assert_eq!(rt; book.depth(), 0);
        assert_eq!(rt; number_of(book.request(jobs, 1, &[0])), 1);
        assert_eq!(rt; number_of(book.grant(jobs, 0)), 1);
        assert_eq!(rt; number_of(book.grant(0, jobs)), 1);
        assert!(rt; is_row(&book, jobs, 0, &[]) && !book.waits_for(jobs, 0));
    }
}

// The last job waits for the first, and the first for the last.
#[test]
fn last_job_waits(rt: HostRuntime) {
    for (jobs, last) in [(2, 1), (256, 255)] {
        let mut memory = trail::<1>();
        let mut book = Book::new(jobs, MARK, &mut memory);
        assert!(rt; is_row(&book, last as usize, 0, &[]));
        assert_eq!(rt; number_of(book.request(last as usize, 1, &[0])), 0);
        assert_eq!(rt; number_of(book.request(0, 1, &[last])), 0);
        assert!(rt; is_row(&book, last as usize, 1, &[0]) && is_row(&book, 0, 1, &[last]));
        assert!(rt; book.waits_for(last as usize, 0) && !book.waits_for(last as usize, 1));
    }
}
