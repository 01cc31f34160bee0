// What is said of the calls of the day.
use crate::day::Step;
use crate::names::name_of;
use crate::show::{row, waiting, word};
use crate::trouble::Trouble;
use std::io;
use wait_book::{
    Answer, BookFault, Call, Detection, Edit, Ending, FinishedScript, Moment, RefusedTicketId,
    Snapshot, StoppedScript, TicketId, Verdict,
};

// The row of a job before and after a call.
fn change(rt: &HostRuntime, job: usize, before: &Snapshot, after: &Snapshot) -> io::Result<()> {
    row(rt, before, job)?;
    print!(rt; " -> ")?;
    row(rt, after, job)?;
    println!(rt; "")
}

// A request or a grant, with the waiting job's row before and after it.
fn edited(rt: &HostRuntime, edit: Edit<'_>, before: &Snapshot, after: &Snapshot) -> io::Result<()> {
    match edit {
        Edit::Request { job, need, targets } => {
            let name = name_of(job);
            let count = targets.len();
            print!(rt; "{name} asks for {need} of {count}: ")?;
            change(rt, job, before, after)
        }
        Edit::Grant { granter, waiter } => {
            let from = name_of(granter);
            let to = name_of(waiter);
            print!(rt; "{from} is done for {to}: ")?;
            change(rt, waiter, before, after)
        }
    }
}

fn found(rt: &HostRuntime, job: usize, answer: Detection) -> io::Result<()> {
    let name = name_of(job);
    let word = word(answer.verdict == Verdict::Stuck);
    let deliveries = answer.deliveries;
    println!(rt; "the detector is asked about the {name}: {word}, {deliveries} deliveries")
}

fn finished(rt: &HostRuntime, script: FinishedScript, bytes: &[u8]) -> io::Result<()> {
    let commands = script.commands;
    print!(rt; "a script is run; commands: {commands}, its answer:")?;
    for byte in bytes.iter().take(script.written) {
        print!(rt; " {byte}")?;
    }
    println!(rt; "")
}

fn stopped(rt: &HostRuntime, script: StoppedScript) -> io::Result<()> {
    let number = script.fault.number();
    let layer = script.fault.layer();
    let offset = script.offset;
    let index = script.index;
    println!(rt;
        "a script is stopped: refusal {number} of layer {layer}, at offset {offset}, command {index}"
    )
}

fn refused(rt: &HostRuntime, fault: BookFault) -> io::Result<()> {
    let number = fault.number();
    println!(rt; "the book refuses: {number}")
}

fn opened(rt: &HostRuntime, id: TicketId) -> io::Result<()> {
    let depth = id.depth;
    println!(rt; "a group is opened at depth {depth}")
}

fn ended(rt: &HostRuntime, ending: Ending, id: TicketId) -> io::Result<()> {
    let depth = id.depth;
    let how = match ending {
        Ending::Keep => "kept",
        Ending::Cancel => "cancelled",
    };
    println!(rt; "the group at depth {depth} is {how}")
}

fn not_ended(rt: &HostRuntime, refused: RefusedTicketId) -> io::Result<()> {
    let number = refused.fault.number();
    let depth = refused.id.depth;
    println!(rt; "the book refuses: {number}; the ticket of depth {depth} comes back")
}

// What a call answered. `bytes` begin with those that it wrote.
fn answered(
    rt: &HostRuntime,
    call: Call<'_>,
    before: &Snapshot,
    moment: &Moment,
    bytes: &[u8],
) -> Result<(), Trouble> {
    let told = match (call, moment.answer) {
        (Call::Edit(made), Answer::Edited(Ok(()))) => edited(rt, made, before, &moment.seen),
        (Call::End { ending, id }, Answer::Ended(Ok(()))) => ended(rt, ending, id),
        (Call::Detect { job }, Answer::Detected(Ok(answer))) => found(rt, job, answer),
        (_, Answer::Opened(Ok(id))) => opened(rt, id),
        (_, Answer::Ran(Ok(script))) => finished(rt, script, bytes),
        (_, Answer::Ran(Err(script))) => stopped(rt, script),
        (_, Answer::Edited(Err(fault))) => refused(rt, fault),
        (_, Answer::Opened(Err(fault))) => refused(rt, fault),
        (_, Answer::Ended(Err(id))) => not_ended(rt, id),
        (_, Answer::Detected(Err(fault))) => return Err(Trouble::NotDetected(fault)),
        // an answer is of the kind of its call
        (_, Answer::Edited(Ok(())) | Answer::Ended(Ok(())) | Answer::Detected(Ok(_))) => Ok(()),
    };
    Ok(told?)
}

/// A call of the day, with what is to be said after it.
pub fn call(
    rt: &HostRuntime,
    step: &Step<'_>,
    before: &Snapshot,
    moment: &Moment,
    bytes: &[u8],
) -> Result<(), Trouble> {
    answered(rt, step.call, before, moment, bytes)?;
    if !step.said.is_empty() {
        let said = step.said;
        println!(rt; "{said}")?;
    }
    if step.lists {
        waiting(rt, &moment.seen)?;
    }
    Ok(())
}

/// What is seen before the first call.
pub fn beginning(rt: &HostRuntime, first: &Snapshot) -> io::Result<()> {
    let jobs = first.rows().len();
    let active = first.rows().iter().filter(|row| row.need == 0).count();
    println!(rt; "a day of regeneration: {jobs} jobs, {active} of them active")
}

/// The detections of the day alone, in one line: the word for each job that was asked about, and the deliveries.
pub fn detections(rt: &HostRuntime, day: &[Step<'_>], moments: &[Moment]) -> io::Result<()> {
    let mut first = true;
    for (step, moment) in day.iter().zip(moments) {
        if let (Call::Detect { job }, Answer::Detected(Ok(found))) = (step.call, moment.answer) {
            let name = name_of(job);
            let word = word(found.verdict == Verdict::Stuck);
            let deliveries = found.deliveries;
            let comma = if first { "" } else { "," };
            print!(rt; "{comma} {name} {word} ({deliveries})")?;
            first = false;
        }
    }
    println!(rt; "")
}
