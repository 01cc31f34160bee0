// The line that a fault prints, and reading in pieces.
use crate::input::read_up_to;
use crate::run::run;
use crate::serve::serve;
use crate::trouble::Trouble;
use std::io;
use std::io::{Cursor, ErrorKind, Read};
use std::test::Fail;
use wait_book::{BookFault, DetectionFault, ScriptFault, StoppedScript};

fn stopped(fault: ScriptFault) -> Trouble {
    Trouble::Stopped(StoppedScript {
        fault,
        offset: 12,
        index: 3,
        written: 8,
    })
}

#[test]
fn tells_refusals_of_the_script(rt: HostRuntime) -> Result<(), Fail> {
    let cases = [
        (ScriptFault::TooLong, "13, the script is too long"),
        (ScriptFault::UnknownLetter, "14, no command has this letter"),
        (ScriptFault::CutOff, "15, the script ends inside a command"),
        (
            ScriptFault::NoScriptGroup,
            "16, no group of the script is open",
        ),
        (
            ScriptFault::NoAnswerSpace,
            "17, no space is left for the answer",
        ),
    ];
    for (fault, words) in cases {
        let trouble = stopped(fault);
        let line = format!(in rt.alloc(); "{trouble:?}")?;
        let wanted = format!(in rt.alloc();
            "refusal {words}; layer 0, script; offset 12; index 3"
        )?;
        assert_eq!(rt; line.as_str(), wanted.as_str());
    }
    Ok(())
}

#[test]
fn tells_refusals_of_the_detection(rt: HostRuntime) -> Result<(), Fail> {
    let cases = [
        (DetectionFault::NoSuchJob, "1, there is no such job"),
        (
            DetectionFault::TooFewRecords,
            "10, there are fewer records than jobs",
        ),
        (
            DetectionFault::MessagesWait,
            "11, messages wait in the carrier",
        ),
        (
            DetectionFault::CarrierTooSmall,
            "12, the carrier is too small",
        ),
    ];
    for (fault, words) in cases {
        let trouble = stopped(ScriptFault::OfDetection(fault));
        let line = format!(in rt.alloc(); "{trouble:?}")?;
        let wanted = format!(in rt.alloc();
            "refusal {words}; layer 2, detection; offset 12; index 3"
        )?;
        assert_eq!(rt; line.as_str(), wanted.as_str());
    }
    Ok(())
}

#[test]
fn tells_refusals_of_the_book(rt: HostRuntime) -> Result<(), Fail> {
    let cases = [
        (BookFault::NoSuchJob, "1, there is no such job"),
        (BookFault::Blocked, "2, the job is blocked"),
        (
            BookFault::WrongCounts,
            "3, the need or the number of targets is wrong",
        ),
        (BookFault::TrailFull, "5, the trail is full"),
        (BookFault::GranterBlocked, "6, the granter is blocked"),
        (
            BookFault::NoSuchWait,
            "7, the waiter does not wait for the granter",
        ),
        (BookFault::TooDeep, "8, too many groups are open"),
        (
            BookFault::NotInnermost,
            "9, the ticket is not that of the innermost group",
        ),
    ];
    for (fault, words) in cases {
        let trouble = stopped(ScriptFault::OfBook(fault));
        let line = format!(in rt.alloc(); "{trouble:?}")?;
        let wanted = format!(in rt.alloc(); "refusal {words}; layer 1, book; offset 12; index 3")?;
        assert_eq!(rt; line.as_str(), wanted.as_str());
    }
    let trouble = stopped(ScriptFault::OfBook(BookFault::WrongTarget(15)));
    let line = format!(in rt.alloc(); "{trouble:?}")?;
    let wanted = "refusal 4, a target is wrong; layer 1, book; offset 12; index 3; value 15";
    assert_eq!(rt; line.as_str(), wanted);
    Ok(())
}

#[test]
fn tells_what_could_not_be_done(rt: HostRuntime) -> Result<(), Fail> {
    let broken = || io::Error::from(ErrorKind::Other);
    let cases = [
        (Trouble::Input(broken()), "the script can't be read: "),
        (Trouble::Output(broken()), "the answers can't be written: "),
    ];
    for (trouble, words) in cases {
        let line = format!(in rt.alloc(); "{trouble:?}")?;
        assert!(rt; line.as_str().starts_with(words));
    }
    Ok(())
}

#[test]
fn tells_where_a_script_stops(rt: HostRuntime) {
    let mut answers = [0; 4];
    match run(b"G\x01\0", &mut answers) {
        Ok(_) => assert!(rt; false),
        Err(stopped) => {
            assert_eq!(rt; stopped.fault, ScriptFault::OfBook(BookFault::NoSuchWait));
            assert_eq!(rt; (stopped.fault.number(), stopped.fault.layer()), (7, 1));
            assert_eq!(rt; (stopped.offset, stopped.index, stopped.written), (0, 0, 0));
        }
    }
}

// A reader that fails.
#[derive(Drop)]
struct Broken;

impl Read for Broken {
    fn read(&mut self, _buf: &mut [u8]) -> io::Result<usize> {
        Err(io::Error::from(ErrorKind::Other))
    }
}

#[test]
fn reads_pieces_to_the_end_or_to_a_failure(rt: HostRuntime) -> Result<(), Fail> {
    let first: &[u8] = b"OO";
    let second: &[u8] = b"KKC";
    let mut memory = [0; 8];
    let count = read_up_to(&mut first.chain(second), &mut memory)?;
    assert_eq!(rt; count, 5);
    assert_eq!(rt; &memory, b"OOKKC\0\0\0");
    assert_eq!(rt; read_up_to(&mut first.chain(second), &mut memory[..4])?, 4);
    assert_eq!(rt; read_up_to(&mut &first[2..], &mut memory)?, 0);
    assert!(rt; read_up_to(&mut first.chain(Broken), &mut memory).is_err());
    Ok(())
}

// A detection writes its answer, and K then has no group to keep: the bytes are printed all the same.
#[test]
fn prints_what_was_written_before_a_fault(rt: HostRuntime) -> Result<(), Fail> {
    let first: &[u8] = b"D";
    let second: &[u8] = b"\x01K";
    let mut output = Cursor::new([9; 6]);
    let served = serve(&mut first.chain(second), &mut output)?;
    assert!(rt; served.printed.is_ok());
    assert_eq!(rt; output.into_inner(), [1, 0, 0, 0, 9, 9]);
    match served.outcome {
        Ok(_) => assert!(rt; false),
        Err(stopped) => {
            assert_eq!(rt; stopped.fault, ScriptFault::NoScriptGroup);
            assert_eq!(rt; (stopped.offset, stopped.index, stopped.written), (2, 1, 4));
        }
    }
    let mut none = Cursor::new([9; 6]);
    assert!(rt; serve(&mut first.chain(Broken), &mut none).is_err());
    assert_eq!(rt; none.into_inner(), [9; 6]);
    Ok(())
}
