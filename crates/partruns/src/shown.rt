// An answer over a part, written to standard output. A float is written by its bits.
use console::number::Bits;
use part_answer::{PartAnswer, PartDecoded, PartRunnerUp};
use runs::print::{At, print_refused};
use std::io;

// The runner-up with its hits and its weight, or that none is shown.
fn print_next(rt: &impl Print, next: PartRunnerUp) -> io::Result<()> {
    match next {
        None => print!(rt; ", no runner-up is shown"),
        Some((square, hits, weight)) => {
            print!(rt;
                ", runner-up {} with {hits} hits, weight {weight}",
                At(square)
            )
        }
    }
}

// What a found answer holds: weights in units.
fn print_found(rt: &impl Print, d: PartDecoded) -> io::Result<()> {
    print!(rt;
        "found {}, hits {} of {}, rate {}, weight {} of {}",
        At(d.square),
        d.hits,
        d.edges,
        Bits(d.error_rate),
        d.weight,
        d.total,
    )?;
    print_next(rt, d.runner_up)
}

// All that decode over a part answers; a refusal is its number and its place alone.
pub(crate) fn print_part_answer(rt: &impl Print, a: PartAnswer) -> io::Result<()> {
    match a {
        Ok(d) => print_found(rt, d),
        Err(r) => print_refused(rt, r),
    }
}
