// A script, a whole life, and a chart with its reduction, in as few lines.
use std::test::Fail;
use wait_book::{
    Book, CHART_MAX, Call, Chart, Creation, LOOSE, Message, Moment, QueueCarrier, RunRecord, Table,
    UndoRecord, live, reduce, write_chart,
};

// Job 0 waits for job 1; is 0 stuck?
const SCRIPT: &[u8] = &[b'R', 0, 1, 1, 1, b'D', 0];

// What it writes: the job, that it is not stuck, and the deliveries that told it.
const WRITTEN: [u8; 4] = [0, 0, 0, 4];

#[test]
fn runs_a_script(rt: HostRuntime) -> Result<(), Fail> {
    let mut memory = [UndoRecord::default(); 64];
    let mut book = Book::new(16, 7, &mut memory);
    let mut records = [RunRecord::default(); 16];
    let mut cells = [Message::default(); 64];
    let mut carrier = QueueCarrier::new(&mut cells);

    let mut answers = [0; 4];
    let ran = book.run_script(SCRIPT, &mut records, &mut carrier, &mut answers)?;
    assert_eq!(rt; ran.commands, 2);
    assert_eq!(rt; answers, WRITTEN);
    Ok(())
}

#[test]
fn lives_a_whole_life(rt: HostRuntime) -> Result<(), Fail> {
    let mut memory = [UndoRecord::default(); 64];
    let mut records = [RunRecord::default(); 16];
    let mut cells = [Message::default(); 64];
    let mut carrier = QueueCarrier::new(&mut cells);

    let creation = Creation { jobs: 16, mark: 7 };
    let calls = [
        Call::Open,
        Call::Detect { job: 2 },
        Call::Run { script: SCRIPT },
    ];
    let mut answers = [0; 4];
    let mut moments = [Moment::default(); 3];
    let first = live(
        creation,
        &mut memory,
        &calls,
        &mut records,
        &mut carrier,
        &mut answers,
        &mut moments,
    )?;
    assert_eq!(rt; first.depth(), 0);
    assert_eq!(rt; moments[2].seen.depth(), 1);
    assert_eq!(rt; moments[2].answer.written(), 4);
    assert_eq!(rt; answers, WRITTEN);
    Ok(())
}

#[test]
fn reads_a_chart_and_reduces_it(rt: HostRuntime) -> Result<(), Fail> {
    let mut memory = [UndoRecord::default(); 64];
    let mut book = Book::new(16, 7, &mut memory);
    book.request(2, 2, &[0, 1])?;

    let mut bytes = [0; CHART_MAX];
    let length = write_chart(&book, &mut bytes);
    assert_eq!(rt; Chart::check(&bytes[..length])?, 16);
    let chart = Chart::new(&bytes[..length]);
    assert!(rt; chart.waits_for(2, 1));

    let mut marks = [0; 16];
    reduce(&chart, &mut marks)?;
    assert_eq!(rt; marks, [LOOSE; 16]);
    Ok(())
}

// A refusal has words.
#[test]
fn tells_a_refusal(rt: HostRuntime) -> Result<(), Fail> {
    let mut memory = [UndoRecord::default(); 64];
    let mut book = Book::new(16, 7, &mut memory);
    if let Err(refusal) = book.request(2, 1, &[2]) {
        assert_eq!(rt; (refusal.number(), refusal.value()), (4, Some(0)));
        let words = format!(in rt.alloc(); "{refusal}")?;
        assert_eq!(rt; words.as_str(), "a target is wrong");
    } else {
        assert!(rt; false);
    }
    Ok(())
}
