// The answer in keys and values, for programs; the line is left open. A refusal is written without a square.
use crate::shown::Shown;
use crate::telling::{Telling, Transforms, share_of};
use crate::told::Told;
use crate::words::name_of;
use answer::{Decoded, SoftDecoded};
use console::number::Decimal;
use exact_answer::ExactDecoded;
use refusals::Refusal;
use std::fmt;

// The answer for programs.
#[derive(Clone, Copy)]
pub struct ForPrograms(pub Telling);

impl fmt::Display for ForPrograms {
    fn fmt<W: fmt::Write>(&self, f: &mut fmt::Formatter<W>) -> fmt::Result {
        let ForPrograms(telling) = *self;
        let Telling {
            answer,
            settings,
            how,
        } = telling;
        match answer {
            Told::Hard(d) => tell_hard(f, d)?,
            Told::Soft(d) => tell_soft(f, d)?,
            Told::Exact(d) => tell_exact(f, d)?,
            Told::Located(shown) => tell_located(f, shown)?,
            Told::Refused(refusal) => tell_refused(f, refusal)?,
        }
        write!(
            f,
            " decode={how} transforms={} limit={} margin={}",
            Transforms {
                settings,
                between: ",",
            },
            Decimal(settings.limit()),
            Decimal(settings.margin()),
        )
    }
}

// The square and how well a list fits there.
#[derive(Clone, Copy)]
struct Found(Shown);

impl fmt::Display for Found {
    fn fmt<W: fmt::Write>(&self, f: &mut fmt::Formatter<W>) -> fmt::Result {
        let Found(shown) = *self;
        let square = shown.square;
        write!(
            f,
            "result=found square={},{} transform={} hits={} edges={} rate={}",
            square.row,
            square.col,
            square.transform,
            shown.hits,
            shown.edges,
            Decimal(shown.error_rate),
        )
    }
}

// The runner-up by hits.
#[derive(Clone, Copy)]
struct RunnerUp(Shown);

impl fmt::Display for RunnerUp {
    fn fmt<W: fmt::Write>(&self, f: &mut fmt::Formatter<W>) -> fmt::Result {
        let RunnerUp(shown) = *self;
        let runner = shown.runner_up;
        write!(
            f,
            " runner_hits={} runner_square={},{} runner_transform={}",
            shown.runner_up_hits, runner.row, runner.col, runner.transform,
        )
    }
}

// A found hard answer.
fn tell_hard<W: fmt::Write>(f: &mut fmt::Formatter<W>, d: Decoded) -> fmt::Result {
    let shown = Shown::from(d);
    write!(
        f,
        "{} mean={} weighted={} score={} lead_hits={}{}",
        Found(shown),
        Decimal(d.mean_confidence),
        Decimal(d.weighted_score),
        Decimal(d.best_score),
        d.margin_hits,
        RunnerUp(shown),
    )
}

// A found soft answer: what is a log likelihood says so by its key.
fn tell_soft<W: fmt::Write>(f: &mut fmt::Formatter<W>, d: SoftDecoded) -> fmt::Result {
    let shown = Shown::from(d);
    let second = d.second;
    write!(
        f,
        "{} mean={} log_likelihood_per_edge={} log_likelihood={} second_log_likelihood={} lead_log_likelihood_per_edge={} \
        second_square={},{} second_transform={}{}",
        Found(shown),
        Decimal(d.mean_confidence),
        Decimal(d.weighted_score),
        Decimal(d.best_score),
        Decimal(d.second_score),
        Decimal(d.margin),
        second.row,
        second.col,
        second.transform,
        RunnerUp(shown),
    )
}

// A found exact answer: weights are whole numbers of 2^-24.
fn tell_exact<W: fmt::Write>(f: &mut fmt::Formatter<W>, d: ExactDecoded) -> fmt::Result {
    let shown = Shown::from(d);
    write!(
        f,
        "{} weight={} total={} share={} lead_hits={}{} runner_weight={}",
        Found(shown),
        d.weight,
        d.total,
        Decimal(share_of(d.weight, d.total)),
        shown.lead(),
        RunnerUp(shown),
        d.runner_up_weight,
    )
}

// What is located without tables.
fn tell_located<W: fmt::Write>(f: &mut fmt::Formatter<W>, shown: Shown) -> fmt::Result {
    write!(
        f,
        "{} lead_hits={}{}",
        Found(shown),
        shown.lead(),
        RunnerUp(shown)
    )
}

// A refusal; where it is about an edge, its list, and its position from 0.
fn tell_refused<W: fmt::Write>(f: &mut fmt::Formatter<W>, refusal: Refusal) -> fmt::Result {
    write!(f, "result=refused number={} square=refused", refusal.number)?;
    match refusal.place {
        None => Ok(()),
        Some(edge) => write!(f, " list={} position={}", name_of(edge.list), edge.position),
    }
}
