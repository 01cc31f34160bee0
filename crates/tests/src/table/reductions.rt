// Small tables, as books and as charts.
use crate::common::*;
use book::Book;
use chart::{CHART_MAX, Chart, ROW_BYTES, write_chart};
use reduction::reduce;
use std::process::Abort;
use tables::Table;

// How many bytes four jobs have in a chart.
const FOUR_JOBS: usize = 4 * ROW_BYTES;

// Makes the requests of the rows.
fn requested(rt: &impl Abort, book: &mut Book, rows: &[Row; 4]) {
    for (job, (need, targets)) in rows.iter().enumerate() {
        if *need > 0 {
            assert!(rt; book.request(job, *need, targets).is_ok());
        }
    }
}

// What the reduction leaves in five bytes; the fifth is no job's.
fn reduced<T: Table>(rt: &impl Abort, table: &T) -> [u8; 5] {
    let mut bytes = [UNTOUCHED; 5];
    assert!(rt; reduce(table, &mut bytes).is_ok());
    bytes
}

// The same rows as book and as chart have the same bytes, and these are the expected ones.
fn both(rt: &impl Abort, rows: &[Row; 4], expected: [u8; 5]) {
    let mut memory = trail::<1>();
    let mut book = Book::new(4, MARK, &mut memory);
    requested(rt, &mut book, rows);
    let mut bytes = [0; CHART_MAX];
    let length = write_chart(&book, &mut bytes);
    assert_eq!(rt; reduced(rt, &book), expected);
    assert_eq!(rt; reduced(rt, &Chart::new(&bytes[..length])), expected);
}

#[test]
fn rings_and_ways_out(rt: HostRuntime) {
    let to_1: Row = (1, &[1]);
    let to_2: Row = (1, &[2]);
    let to_0: Row = (1, &[0]);
    both(&rt, &[to_1, to_2, to_0, ACTIVE], [1, 1, 1, 0, UNTOUCHED]);
    both(
        &rt,
        &[to_1, to_2, (1, &[0, 3]), ACTIVE],
        [0, 0, 0, 0, UNTOUCHED],
    );
    both(
        &rt,
        &[ACTIVE, ACTIVE, ACTIVE, ACTIVE],
        [0, 0, 0, 0, UNTOUCHED],
    );
}

#[test]
fn two_of_three_at_the_edge(rt: HostRuntime) {
    let two: Row = (2, &[1, 2, 3]);
    let to_0: Row = (1, &[0]);
    both(&rt, &[two, ACTIVE, to_0, ACTIVE], [0, 0, 0, 0, UNTOUCHED]);
    both(&rt, &[two, ACTIVE, to_0, to_0], [1, 0, 1, 1, UNTOUCHED]);
}

#[test]
fn too_few_bytes(rt: HostRuntime) {
    let bytes = [0; FOUR_JOBS];
    let mut marks = [UNTOUCHED; 3];
    match reduce(&Chart::new(&bytes), &mut marks) {
        Ok(()) => assert!(rt; false),
        Err(fault) => assert_eq!(rt; fault.number(), 10),
    }
    assert_eq!(rt; marks, [UNTOUCHED; 3]);
}
