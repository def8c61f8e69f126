// The answer for people. A refusal is written without a square.
use crate::shown::Shown;
use crate::told::{How, Told};
use crate::words::{
    Other, advice_of, decoding_of, directions_of, meaning_of, name_of, orientation_of, remark,
};
use answer::{Decoded, SoftDecoded};
use console::number::Decimal;
use exact_answer::ExactDecoded;
use refusals::Refusal;
use std::fmt;
use viewtext::settings::Settings;

// All that is told: the answer, the settings that hold, and how the view was decoded.
#[derive(Clone, Copy)]
pub struct Telling {
    pub answer: Told,
    pub settings: Settings,
    pub how: How,
}

// The answer for people.
#[derive(Clone, Copy)]
pub struct ForPeople(pub Telling);

impl fmt::Display for ForPeople {
    fn fmt<W: fmt::Write>(&self, f: &mut fmt::Formatter<W>) -> fmt::Result {
        let ForPeople(telling) = *self;
        let Telling {
            answer,
            settings,
            how,
        } = telling;
        match answer {
            Told::Hard(d) => tell_hard(f, d)?,
            Told::Soft(d) => tell_soft(f, d)?,
            Told::Exact(d) => tell_exact(f, d)?,
            Told::Located(shown) => tell_located(f, shown)?,
            Told::Refused(refusal) => tell_refused(f, refusal, how)?,
        }
        write!(
            f,
            "\x20 decode       {}\n\
            \x20 settings     transforms {}{}, limit {}{}, margin {}{}\n",
            decoding_of(how),
            Transforms {
                settings,
                between: " ",
            },
            remark(settings.has_transforms()),
            Decimal(settings.limit()),
            remark(settings.has_limit()),
            Decimal(settings.margin()),
            remark(settings.has_margin()),
        )
    }
}

// The transforms that were searched, with a text between them.
#[derive(Clone, Copy)]
pub(crate) struct Transforms {
    pub settings: Settings,
    pub between: &'static str,
}

impl fmt::Display for Transforms {
    fn fmt<W: fmt::Write>(&self, f: &mut fmt::Formatter<W>) -> fmt::Result {
        let transforms = self.settings.transforms();
        f.write_joined(transforms.numbers().iter(), self.between)
    }
}

// The square, how the board lies there and how well a list fits; the line is left open.
#[derive(Clone, Copy)]
struct Found(Shown);

impl fmt::Display for Found {
    fn fmt<W: fmt::Write>(&self, f: &mut fmt::Formatter<W>) -> fmt::Result {
        let Found(shown) = *self;
        let square = shown.square;
        let transform = square.transform;
        write!(
            f,
            "found row {}, column {}\n\
            \x20 orientation  the board appears {} (transform {transform}):\n\
            \x20              {}\n\
            \x20 hits         {} of {} edges, error rate {}",
            square.row,
            square.col,
            orientation_of(transform),
            directions_of(transform),
            shown.hits,
            shown.edges,
            Decimal(shown.error_rate),
        )
    }
}

// The lead in hits.
#[derive(Clone, Copy)]
struct Lead(u32);

impl fmt::Display for Lead {
    fn fmt<W: fmt::Write>(&self, f: &mut fmt::Formatter<W>) -> fmt::Result {
        write!(f, "  lead         {} hits over the runner-up\n", self.0)
    }
}

// The runner-up by hits; the line is left open.
#[derive(Clone, Copy)]
struct RunnerUp(Shown);

impl fmt::Display for RunnerUp {
    fn fmt<W: fmt::Write>(&self, f: &mut fmt::Formatter<W>) -> fmt::Result {
        let RunnerUp(shown) = *self;
        let square = Other(shown.runner_up);
        write!(
            f,
            "  runner-up    {square}, with {} hits",
            shown.runner_up_hits
        )
    }
}

// A weight in units of 2^-24, of the total of its list.
#[derive(Clone, Copy)]
struct Weight {
    weight: u64,
    total: u64,
}

impl fmt::Display for Weight {
    fn fmt<W: fmt::Write>(&self, f: &mut fmt::Formatter<W>) -> fmt::Result {
        let Weight { weight, total } = *self;
        let share = Decimal(share_of(weight, total));
        write!(f, "{weight} of {total} units, share {share}\n")
    }
}

// The share of a weight in a total, to six places; 0 where there is no total, or where the weight or the total is more than a list of 8,192 edges can weigh.
pub(crate) fn share_of(weight: u64, total: u64) -> f32 {
    if total == 0 || total > 137438953472 || weight > 137438953472 {
        return 0.0;
    }
    of_millionths((weight * 1000000 + total / 2) / total)
}

// Millionths of 1 as a float; 0 where they are more than 1.
fn of_millionths(n: u64) -> f32 {
    if n > 1000000 {
        return 0.0;
    }
    n as f32 / 1000000.0
}

// A found hard answer: the lead is in hits.
fn tell_hard<W: fmt::Write>(f: &mut fmt::Formatter<W>, d: Decoded) -> fmt::Result {
    let shown = Shown::from(d);
    write!(
        f,
        "{}, mean confidence {}\n{}{}\n",
        Found(shown),
        Decimal(d.mean_confidence),
        Lead(d.margin_hits),
        RunnerUp(shown),
    )
}

// A found soft answer: the lead is for each edge by log likelihood, and the second by it may be another square than the runner-up.
fn tell_soft<W: fmt::Write>(f: &mut fmt::Formatter<W>, d: SoftDecoded) -> fmt::Result {
    let shown = Shown::from(d);
    write!(
        f,
        "{}, mean confidence {}\n\
        \x20 lead         {} in log likelihood for each edge\n\
        \x20 likelihood   {} in log likelihood, and {} at the second\n\
        \x20 second       {}, by log likelihood\n\
        {}\n",
        Found(shown),
        Decimal(d.mean_confidence),
        Decimal(d.margin),
        Decimal(d.best_score),
        Decimal(d.second_score),
        Other(d.second),
        RunnerUp(shown),
    )
}

// A found exact answer: weights are whole numbers of 2^-24.
fn tell_exact<W: fmt::Write>(f: &mut fmt::Formatter<W>, d: ExactDecoded) -> fmt::Result {
    let shown = Shown::from(d);
    write!(
        f,
        "{}\n\
        \x20 weight       {}{}{}, weight {}",
        Found(shown),
        Weight {
            weight: d.weight,
            total: d.total,
        },
        Lead(shown.lead()),
        RunnerUp(shown),
        Weight {
            weight: d.runner_up_weight,
            total: d.total,
        },
    )
}

// What is located without tables: there is no score.
fn tell_located<W: fmt::Write>(f: &mut fmt::Formatter<W>, shown: Shown) -> fmt::Result {
    write!(
        f,
        "{}\n{}{}\n",
        Found(shown),
        Lead(shown.lead()),
        RunnerUp(shown)
    )
}

// A refusal, by how the view was decoded: its number, what it means and what helps; where it is about one edge, its list and its position, counted from 1 for people.
fn tell_refused<W: fmt::Write>(
    f: &mut fmt::Formatter<W>,
    refusal: Refusal,
    how: How,
) -> fmt::Result {
    let number = refusal.number;
    let meaning = meaning_of(number, how);
    write!(f, "refused {number}\n  meaning      {meaning}\n")?;
    if let Some(edge) = refusal.place {
        write!(
            f,
            "  where        {} list, edge {} (counting from 1)\n",
            name_of(edge.list),
            edge.position.wrapping_add(1),
        )?;
    }
    let advice = advice_of(number, how);
    write!(f, "  what helps   {advice}\n")
}
