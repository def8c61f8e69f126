// Runs of the engine without tables, request C-16: each list goes through hard decode, as both of its lists, and through `locate`. Both say the same placing, hits and runner-up's hits,
// or refuse with the same number. Each section is headed by its name. What it writes is held to the file `stdout`.
#![tactic(auto)]

mod both; // one list through both engines
mod windows; // windows of the flat board and of poles, and lists that must be refused
mod smallest; // the smallest list of which the engines name different runners-up

use std::io;

fn main(rt: HostRuntime) -> io::Result<()> {
    println!(rt; "== windows ==")?;
    windows::show_all(&rt)?;
    println!(rt; "== the smallest list with two runners-up ==")?;
    smallest::show_all(&rt)
}
