// A book beside its index: waiters in several words, and none where none waits.
use crate::common::*;
use book::Book;
use tables::{INDEX_WORDS, Indexed, Table, TwoWayTable};

// The words are full of old marks, which have to go.
#[test]
fn index_finds_waiters_in_every_word(rt: HostRuntime) {
    let mut memory = trail::<1>();
    let mut book = Book::new(256, MARK, &mut memory);
    for job in [3, 63, 64, 130, 255] {
        assert!(rt; book.request(job, 1, &[0, 2]).is_ok());
    }
    let mut words = [u64::MAX; INDEX_WORDS];
    let indexed = Indexed::new(&book, &mut words);
    assert_eq!(rt; indexed.wait_count(), 10);
    assert!(rt; indexed.waiters(0).eq([3, 63, 64, 130, 255]));
    assert!(rt; indexed.waiters(2).eq(book.waiters(2)));
    assert!(rt; indexed.waiters(1).eq([]) && indexed.waiters(256).eq([]));
    assert_eq!(rt; indexed.next_waiter(0, 64), Some(64));
    assert_eq!(rt; indexed.next_waiter(0, 65), Some(130));
    assert_eq!(rt; indexed.next_waiter(0, 256), None);
    assert_eq!(rt; indexed.waiter(2, 1), Some(63));
    assert_eq!(rt; indexed.waiters_in_word(0, 0), 1 << 3 | 1 << 63);
    assert_eq!(rt; indexed.waiters_in_word(0, 2), 1 << 2);
    assert_eq!(rt;
        indexed.waiters_in_word(0, 4) | indexed.waiters_in_word(256, 0),
        0
    );
    assert_eq!(rt; indexed.need(255), 1);
}
