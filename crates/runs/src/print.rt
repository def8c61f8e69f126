// Answers written to standard output. A float is written by its bits, a NaN by its name.
use answer::{Answer, Decoded, SoftAnswer, SoftDecoded, Square, StatsAnswer};
use console::number::Bits;
use exact_answer::{ExactAnswer, ExactDecoded};
use refusals::{Admission, ListName, Refusal};
use std::{fmt, io};

// The square that an answer names, with its transform.
#[derive(Clone, Copy)]
pub struct At(pub Square);

impl fmt::Display for At {
    fn fmt<W: fmt::Write>(&self, f: &mut fmt::Formatter<W>) -> fmt::Result {
        let At(square) = *self;
        write!(
            f,
            "transform {} row {} column {}",
            square.transform, square.row, square.col
        )
    }
}

// What a found hard answer holds.
#[derive(Clone, Copy)]
struct Hard(Decoded);

impl fmt::Display for Hard {
    fn fmt<W: fmt::Write>(&self, f: &mut fmt::Formatter<W>) -> fmt::Result {
        let Hard(d) = *self;
        write!(
            f,
            "{}, hits {} of {}, weighted {}, rate {}, mean {}, best {}, margin {} hits, runner-up {} with {} hits",
            At(d.square),
            d.hits,
            d.edges,
            Bits(d.weighted_score),
            Bits(d.error_rate),
            Bits(d.mean_confidence),
            Bits(d.best_score),
            d.margin_hits,
            At(d.runner_up),
            d.runner_up_hits,
        )
    }
}

// What a found soft answer holds.
#[derive(Clone, Copy)]
struct Soft(SoftDecoded);

impl fmt::Display for Soft {
    fn fmt<W: fmt::Write>(&self, f: &mut fmt::Formatter<W>) -> fmt::Result {
        let Soft(d) = *self;
        write!(
            f,
            "{}, hits {} of {}, weighted {}, rate {}, mean {}, best {}, margin {}, second {} with {}, runner-up {} with {} hits",
            At(d.square),
            d.hits,
            d.edges,
            Bits(d.weighted_score),
            Bits(d.error_rate),
            Bits(d.mean_confidence),
            Bits(d.best_score),
            Bits(d.margin),
            At(d.second),
            Bits(d.second_score),
            At(d.runner_up),
            d.runner_up_hits,
        )
    }
}

// What a found exact answer holds: weights in units.
#[derive(Clone, Copy)]
struct Exact(ExactDecoded);

impl fmt::Display for Exact {
    fn fmt<W: fmt::Write>(&self, f: &mut fmt::Formatter<W>) -> fmt::Result {
        let Exact(d) = *self;
        write!(
            f,
            "{}, hits {} of {}, rate {}, weight {} of {}, runner-up {} with {} hits, weight {}",
            At(d.square),
            d.hits,
            d.edges,
            Bits(d.error_rate),
            d.weight,
            d.total,
            At(d.runner_up),
            d.runner_up_hits,
            d.runner_up_weight,
        )
    }
}

// A refusal: its number, and where it is about an edge, its list and its position from 0.
#[derive(Clone, Copy)]
pub struct Reason(pub Refusal);

impl fmt::Display for Reason {
    fn fmt<W: fmt::Write>(&self, f: &mut fmt::Formatter<W>) -> fmt::Result {
        let Reason(refusal) = *self;
        write!(f, "{}", refusal.number)?;
        match refusal.place {
            None => Ok(()),
            Some(edge) => write!(
                f,
                " ({} list, position {})",
                name_of(edge.list),
                edge.position
            ),
        }
    }
}

// The name of a list.
fn name_of(list: ListName) -> &'static str {
    match list {
        ListName::Logical => "logical",
        ListName::Physical => "physical",
        ListName::Only => "only",
    }
}

// A refusal in the place of an answer.
pub fn print_refused(rt: &impl Print, refusal: Refusal) -> io::Result<()> {
    print!(rt; "refused {}", Reason(refusal))
}

// What is found, or the refusal in its place.
fn print_found<D: fmt::Display + Drop>(rt: &impl Print, a: Result<D, Refusal>) -> io::Result<()> {
    match a {
        Ok(d) => print!(rt; "found {d}"),
        Err(r) => print_refused(rt, r),
    }
}

// All that hard decode answers; a refusal is its number and its place alone.
pub fn print_answer(rt: &impl Print, a: Answer) -> io::Result<()> {
    print_found(rt, a.map(Hard))
}

// The same of soft decode.
pub fn print_soft_answer(rt: &impl Print, a: SoftAnswer) -> io::Result<()> {
    print_found(rt, a.map(Soft))
}

// The same of exact decode.
pub fn print_exact_answer(rt: &impl Print, a: ExactAnswer) -> io::Result<()> {
    print_found(rt, a.map(Exact))
}

// What the checks say of a call: the number of its refusal and its place, or 0 where it is accepted.
pub fn print_admission(rt: &impl Print, a: Admission) -> io::Result<()> {
    match a {
        Ok(()) => print!(rt; "0"),
        Err(r) => print!(rt; "{}", Reason(r)),
    }
}

// What match statistics answer.
pub fn print_stats(rt: &impl Print, s: StatsAnswer) -> io::Result<()> {
    match s {
        Ok(m) => print!(rt;
            "counted edges={} hits={} rate={} mean={}",
            m.edges,
            m.hits,
            Bits(m.error_rate),
            Bits(m.mean_confidence),
        ),
        Err(r) => print_refused(rt, r),
    }
}
