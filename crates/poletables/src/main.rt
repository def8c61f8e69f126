// Builds the class tables of stored lists on poles through the library and compares every cell with the given Rust's: counts, weights by their bits, and sums of
// likelihoods. Each argument is a file of lists and cells (its form is in oracle/src/file.rs). Of each it writes every list that differs, how many lists there are by the
// length of the horizontal table, and the totals. What it writes is held to the file `stdout`.
#![tactic(auto)]

mod build; // the tables of one list, built where the checks take it
mod compared; // cells compared with those of a file
mod tally; // what was compared, and what differs
mod run; // a file's entries, one after the other

use std::io;
use wordfile::named::is_named;

// Every file that is named.
fn main(rt: HostRuntime) -> io::Result<()> {
    for i in 1..usize::MAX {
        if !is_named(&rt, i) {
            break;
        }
        run::run_file(&rt, i)?;
    }
    Ok(())
}
