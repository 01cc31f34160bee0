// What is seen of the book, as lines of text, and the words for stuck and slow.
use crate::names::{JOBS, name_of};
use crate::trouble::Trouble;
use std::io;
use wait_book::{CHART_MAX, Chart, PlainRow, STUCK, Snapshot, reduce, write_chart};

// The row of a job; beyond the last job it is idle.
fn row_of(seen: &Snapshot, job: usize) -> PlainRow {
    seen.rows().get(job).copied().unwrap_or_default()
}

/// What a job needs, and for what it waits.
pub fn row(rt: &HostRuntime, seen: &Snapshot, job: usize) -> io::Result<()> {
    let row = row_of(seen, job);
    let need = row.need;
    if need == 0 {
        return print!(rt; "active");
    }
    print!(rt; "needs {need} of ")?;
    for (place, target) in row.targets.iter().take(row.count as usize).enumerate() {
        let comma = if place == 0 { "" } else { ", " };
        let name = name_of(*target as usize);
        print!(rt; "{comma}{name}")?;
    }
    Ok(())
}

/// How it is said that a job is stuck, or that it is not.
pub fn word(stuck: bool) -> &'static str {
    if stuck { "stuck" } else { "only slow" }
}

/// The jobs that wait, each with the word of the reduction, which reads the rows as a chart.
pub fn waiting(rt: &HostRuntime, seen: &Snapshot) -> Result<(), Trouble> {
    let mut bytes = [0; CHART_MAX];
    let length = write_chart(seen, &mut bytes);
    let mut marks = [0; JOBS];
    reduce(&Chart::new(&bytes[..length]), &mut marks)?;
    for (job, mark) in marks.iter().enumerate() {
        if row_of(seen, job).need > 0 {
            let name = name_of(job);
            let word = word(*mark == STUCK);
            print!(rt; "  {name}: ")?;
            row(rt, seen, job)?;
            println!(rt; " ({word})")?;
        }
    }
    Ok(())
}
