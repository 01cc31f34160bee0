// Requests and grants on examples.
use crate::plain::{PlainRow, Row, RowFault, TARGETS_MAX};
use std::test::Fail;

// Sixteen targets, and one more.
const MANY: [u8; 17] = [0, 1, 3, 4, 5, 6, 7, 8, 9, 10, 11, 12, 13, 14, 15, 16, 17];

#[test]
fn requests(rt: HostRuntime) {
    let wrong_counts = Some(RowFault::WrongCounts);
    // need, targets and fault of a request by job 2 of 18 jobs
    let cases: [(u8, &[u8], Option<RowFault>); 9] = [
        (1, &[17], None),
        (16, &MANY[..16], None),
        (16, &MANY, wrong_counts),
        (0, &[1, 3], wrong_counts),
        (3, &[1, 3], wrong_counts),
        (0, &[], wrong_counts),
        (1, &[18, 2], Some(RowFault::WrongTarget(0))),
        (1, &[1, 2, 0], Some(RowFault::WrongTarget(1))),
        (1, &[1, 3, 3], Some(RowFault::WrongTarget(2))),
    ];
    for (need, targets, fault) in cases {
        assert!(rt; Row::request(18, 2, need, targets).err() == fault);
    }
}

// A row whose targets are these, with a need.
fn is_row(row: &Row, need: u8, targets: &[u8]) -> bool {
    row.need() == need && row.targets() == targets
}

#[test]
fn grants(rt: HostRuntime) -> Result<(), Fail> {
    let Ok(row) = Row::request(18, 2, 2, &[1, 3, 17]) else {
        return Err(Fail::new("no row"));
    };
    assert!(rt; row.granted(2).is_none());
    assert!(rt; row.granted(18).is_none());
    for (granter, left) in [(1, [3, 17]), (3, [1, 17]), (17, [1, 3])] {
        let Some(once) = row.granted(granter) else {
            return Err(Fail::new("no wait"));
        };
        assert!(rt; is_row(&once, 1, &left));
        assert!(rt; once.granted(granter).is_none());
        for next in left {
            let Some(twice) = once.granted(next as usize) else {
                return Err(Fail::new("no wait"));
            };
            assert!(rt; is_row(&twice, 0, &[]));
        }
    }
    Ok(())
}

#[test]
fn stored(rt: HostRuntime) -> Result<(), Fail> {
    // the same need and targets, made in two ways
    let (Ok(made), Ok(wide)) = (
        Row::request(18, 2, 1, &[3]),
        Row::request(18, 2, 2, &[1, 3]),
    ) else {
        return Err(Fail::new("no row"));
    };
    assert!(rt; made != wide);
    assert!(rt; wide.granted(1) == Some(made));
    let mut targets = [0; TARGETS_MAX];
    targets[0] = 3;
    let mut plain = PlainRow {
        need: 1,
        count: 1,
        targets,
    };
    assert!(rt; PlainRow::from(made) == plain);
    assert!(rt; Row::try_from(plain) == Ok(made));
    // a place that no target is in
    plain.targets[15] = 7;
    assert!(rt; Row::try_from(plain).is_err());
    Ok(())
}
