// Runs of decode over a part, request C-20: a part across both seams, a view that is too small for the whole board, one origin, two list positions at one origin, the full part beside exact
// decode, and each refusal. Each section is headed by its name. What it writes is held to the file `stdout`.
#![tactic(auto)]

mod shown; // an answer over a part, as text
mod windows; // windows of the flat board, over parts and over the whole board
mod refused; // each refusal number

use std::io;

fn main(rt: HostRuntime) -> io::Result<()> {
    println!(rt; "== windows ==")?;
    windows::show_all(&rt)?;
    println!(rt; "== refusals ==")?;
    refused::show_all(&rt)
}
