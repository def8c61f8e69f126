// Runs of the library on poles, request C-13: every length of a horizontal table from 0 to 510 with the least room that is taken, and windows of the smallest and the largest
// pole and of those beside the flat board, cut across the seam. What it writes is held to the file `stdout`.
#![tactic(auto)]

mod lengths; // which lengths are accepted, and in how much room
mod windows; // hard and soft decode of windows across the seam

use std::io;

fn main(rt: HostRuntime) -> io::Result<()> {
    println!(rt; "== lengths ==")?;
    lengths::show_all(&rt)?;
    println!(rt; "== windows across the seam ==")?;
    windows::show_all(&rt)
}
