// Runs stored cases through the public library and compares every word of every answer. Each argument is a file of cases and answers (its form is in oracle/src/file.rs).
// Of each it writes how many cases there are by kind and by refusal number, every difference, and how many there were. What it writes is held to the file `stdout`.
#![tactic(auto)]

mod answers; // an answer as seventeen words
mod selection; // selection before the gate
mod calls; // one call of the library
mod tally; // what was compared, and what differs
mod run; // a file's entries, one after the other

use std::io;
use wordfile::named::is_named;

// Every file that is named.
fn main(rt: HostRuntime) -> io::Result<()> {
    for i in 1..usize::MAX {
        if !is_named(&rt, i) {
            break;
        }
        run::run_file(&rt, i)?;
    }
    Ok(())
}
