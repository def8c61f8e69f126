// Runs of exact decode, request C-15: document 01's numbers to try, confidences around half a unit, poles, views around 1,024 class pairs by which document 01's physical winner
// changes and this mode's does not, and each refusal. Each section is headed by its name. What it writes is held to the file `stdout`.
#![tactic(auto)]

mod windows; // windows, and lists in which many placings tie
mod views; // views around 1,024 class pairs, in both modes
mod refused; // each refusal number

use std::io;

fn main(rt: HostRuntime) -> io::Result<()> {
    println!(rt; "== windows ==")?;
    windows::show_all(&rt)?;
    println!(rt; "== views around 1,024 class pairs ==")?;
    views::show_all(&rt)?;
    println!(rt; "== refusals ==")?;
    refused::show_all(&rt)
}
