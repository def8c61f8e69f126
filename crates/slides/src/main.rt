// A window slid by rows and columns, request C-21: the square that the camera faces slides by the transformed shift, negated. What it writes is held to the file `stdout`.
#![tactic(auto)]

mod slid; // windows cut from a board, and slid

use slid::show_all;
use std::io;

fn main(rt: HostRuntime) -> io::Result<()> {
    println!(rt; "== the flat board ==")?;
    show_all(&rt, 167, 499, 3)?;
    println!(rt; "== a pole of 100 ==")?;
    show_all(&rt, 100, 1, 500)
}
