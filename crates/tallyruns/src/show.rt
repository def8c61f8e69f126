// A record and an answer in words.
use runs::print::{At, print_refused};
use std::io;
use tally::{Tally, TallyAnswer};

// A record: its placing, its edges, and hits and misses of each orientation.
fn print_record(rt: &impl Print, t: Tally) -> io::Result<()> {
    println!(rt;
        "{}, {} edges, horizontal {} hits {} misses, vertical {} hits {} misses",
        At(t.square),
        t.edges,
        t.horizontal_hits,
        t.horizontal_misses,
        t.vertical_hits,
        t.vertical_misses,
    )
}

// What an edit answers.
pub(crate) fn print_tally(rt: &impl Print, a: TallyAnswer) -> io::Result<()> {
    match a {
        Ok(t) => print_record(rt, t),
        Err(r) => {
            print_refused(rt, r)?;
            println!(rt; "")
        }
    }
}
