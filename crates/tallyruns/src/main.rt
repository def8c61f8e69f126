// Runs of the tally, request C-17: edits in a row, each beside a recount from nothing, and every refusal in its order. Each section is headed by its name. What it writes is held to the file `stdout`.
#![tactic(auto)]

mod edits; // many edits in a row, each beside a recount
mod refused; // every refusal, and the order of two
mod show; // a record and an answer in words

use std::io;

fn main(rt: HostRuntime) -> io::Result<()> {
    println!(rt; "== edits in a row ==")?;
    edits::show_all(&rt)?;
    println!(rt; "== refusals ==")?;
    refused::show_all(&rt)
}
