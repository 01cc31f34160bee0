//! Runs a script from standard input on a book of its own, and writes what the script writes.
#![tactic(auto)]

mod input;
mod run;
mod serve;
#[cfg(test)]
mod tests;
mod trouble;

use crate::serve::serve;
use crate::trouble::Trouble;

fn main(rt: HostRuntime) -> Result<(), Trouble> {
    let served = serve(&mut rt.stdin(), &mut rt.stdout()).map_err(Trouble::Input)?;
    // a fault is told even where nothing could be printed
    served.outcome.map_err(Trouble::Stopped)?;
    served.printed.map_err(Trouble::Output)
}
