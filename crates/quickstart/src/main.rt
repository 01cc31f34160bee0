//! The wait book in a few lines: a group of edits, and which of its jobs are stuck.
#![tactic(auto)]

#[cfg(test)]
mod tests;

use wait_book::{Book, Message, QueueCarrier, RunRecord, UndoRecord, detect};

fn main(rt: HostRuntime) -> anyhow::Result<()> {
    let mut memory = [UndoRecord::default(); 64];
    let mut book = Book::new(5, 7, &mut memory); // 5 jobs, mark 7, a trail of 64 undo records
    let mut records = [RunRecord::default(); 5]; // one for each job
    let mut cells = [Message::default(); 10]; // two for each of the five waits
    let mut carrier = QueueCarrier::new(&mut cells);

    let ticket = book.open()?; // a group
    let asked = [
        book.request(0, 1, &[1, 2]), // the sheet needs one of two views
        book.request(2, 1, &[3]), // and three views wait in a ring
        book.request(3, 1, &[4]),
        book.request(4, 1, &[2]),
    ];
    let view = detect(&book, 2, &mut records, &mut carrier);
    let sheet = detect(&book, 0, &mut records, &mut carrier);
    book.cancel(ticket).unwrap(); // on every way out; `keep` would let the waits stand

    for answer in asked {
        answer?;
    }
    println!(rt;
        "the view: {:?}; the sheet: {:?}",
        view?.verdict, sheet?.verdict
    )?;
    Ok(())
}
