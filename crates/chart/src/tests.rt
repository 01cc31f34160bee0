// Charts on examples.
ghost use Rattle.std.specs.Prelude.{◌<◌};

use crate::chart::Chart;
use crate::fault::ChartFault;
use std::test::Fail;
use tables::{Table, TwoWayTable};

// The bytes of 257 active jobs.
const ZEROS: [u8; 4626] = [0; 4626];

#[test]
fn lengths(rt: HostRuntime) {
    let wrong = Some(ChartFault::WrongLength);
    let cases: [(&[u8], Option<usize>, Option<ChartFault>); 5] = [
        (&ZEROS[..0], None, wrong),
        (&ZEROS[..17], None, wrong),
        (&ZEROS[..18], Some(1), None),
        (&ZEROS[..4608], Some(256), None),
        (&ZEROS, None, wrong),
    ];
    for (part, jobs, fault) in cases {
        assert!(rt; Chart::check(part).ok() == jobs);
        assert!(rt; Chart::check(part).err() == fault);
    }
}

// Three jobs: job 0 needs one of jobs 1 and 2, job 1 needs job 2, and job 2 is active.
fn right() -> [u8; 54] {
    let mut bytes = [0; 54];
    bytes[..4].copy_from_slice(&[1, 2, 1, 2]);
    bytes[18..21].copy_from_slice(&[1, 1, 2]);
    bytes
}

// The bytes of the three jobs with another byte at a place.
fn changed(place: usize, byte: u8) -> [u8; 54]
    requires { place < 54 }
{
    let mut bytes = right();
    bytes[place] = byte;
    bytes
}

#[test]
fn wrong_rows(rt: HostRuntime) -> Result<(), Fail> {
    // a need above the count, a target not rising, and unused bytes; with the job
    let cases = [
        (changed(0, 3), 0),
        (changed(3, 1), 0),
        (changed(21, 3), 1),
        (changed(53, 1), 2),
    ];
    for (bytes, job) in cases {
        let Err(fault) = Chart::check(&bytes) else {
            return Err(Fail::new("no fault"));
        };
        assert!(rt; fault.number() == 19);
        assert!(rt; fault.value() == Some(job));
        assert!(rt; Chart::new(&bytes).jobs() == 0);
    }
    Ok(())
}

#[test]
fn three_jobs(rt: HostRuntime) {
    let bytes = right();
    let chart = Chart::new(&bytes);
    assert!(rt; chart.jobs() == 3);
    for (job, need, count) in [(0, 1, 2), (1, 1, 1), (2, 0, 0), (3, 0, 0)] {
        assert!(rt; chart.need(job) == need);
        assert!(rt; chart.target_count(job) == count);
    }
    for (job, place, target) in [
        (0, 0, Some(1)),
        (0, 1, Some(2)),
        (0, 2, None),
        (1, 0, Some(2)),
        (3, 0, None),
    ] {
        assert!(rt; chart.target(job, place) == target);
    }
    for (job, place, waiter) in [
        (1, 0, Some(0)),
        (2, 0, Some(0)),
        (2, 1, Some(1)),
        (2, 2, None),
        (0, 0, None),
    ] {
        assert!(rt; chart.waiter(job, place) == waiter);
    }
}

#[test]
fn walks(rt: HostRuntime) {
    let bytes = right();
    let chart = Chart::new(&bytes);
    assert!(rt; chart.targets(0).eq([1, 2]));
    assert!(rt; chart.targets(3).eq([]));
    assert!(rt; chart.waiters(2).eq([0, 1]));
    assert!(rt; chart.waiters(0).eq([]));
}
