// Runs of the library: document 01's numbers and the numbers at their edges, each refusal, and windows of a board. Each section is headed by its name. What
// it writes is held to the file `stdout`.
#![tactic(auto)]

mod bent; // a degenerate board, and columns bent after a window was cut
mod likelihoods; // a likelihood as a whole number, and a sum back to a float
mod refused; // refusals 1 to 9, 16 and 17, alone and by pairs
mod which_edge; // the edge that a refusal is about
mod class_tables; // the class tables of one list for two transforms
mod windows; // hard decode of windows and of lists that it must refuse
mod soft_windows; // soft decode of noisy windows

use std::io;

fn main(rt: HostRuntime) -> io::Result<()> {
    println!(rt; "== likelihoods ==")?;
    likelihoods::show_all(&rt)?;
    println!(rt; "== refusals ==")?;
    refused::show_all(&rt)?;
    println!(rt; "== which edge ==")?;
    which_edge::show_all(&rt)?;
    println!(rt; "== class tables ==")?;
    class_tables::show_all(&rt)?;
    println!(rt; "== windows ==")?;
    windows::show_all(&rt)?;
    println!(rt; "== soft windows ==")?;
    soft_windows::show_all(&rt)
}
