// Runs of the test of one placing, request C-18: each list is tested against an error limit, and goes through match statistics beside it. Where both take the list, the answer is yes exactly where
// their rate is at most the limit. Each section is headed by its name. What it writes is held to the file `stdout`.
#![tactic(auto)]

mod both; // one list through the test and through match statistics
mod stops; // windows that pass and fail at the first, a middle and the last edge that can decide
mod edges; // bad edges before and after the stop
mod calls; // calls that must be refused, the empty list and the longest

use std::io;

fn main(rt: HostRuntime) -> io::Result<()> {
    println!(rt; "== where the answer is certain ==")?;
    stops::show_all(&rt)?;
    println!(rt; "== bad edges ==")?;
    edges::show_all(&rt)?;
    println!(rt; "== calls ==")?;
    calls::show_all(&rt)
}
