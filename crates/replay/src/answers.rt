// An answer as seventeen words: 0 or the refusal's number, transform, row, column, hits, edges, weighted score, rate, mean, best score, the runner-up's score (before
// the gate: its hits), margin, the runner-up's transform, row and column, and the list and the position of the edge that a refusal is about. A place that an answer
// leaves empty holds 0xffffffff. A found answer of exact decode has weight, total, rate and the runner-up's hits between edges and the runner-up's transform, and the runner-up's
// weight at the end; weight and total are two words each, the lower one first.
use answer::{AnyAnswer, MatchStats, StatsAnswer};
use console::number::bits_of;
use exact_answer::{ExactAnswer, ExactDecoded};
use flat::flat::{NOTHING, list_of, position_of};
use hard::select::Selection;
use locate_answer::{LocateAnswer, Located};
use refusals::Refusal;
use scan::scan::{Candidate, RunnerUp};
use ten_fields::TenFields;

// The place of the number in an answer that is no refusal.
const NOT_REFUSED: u32 = 0;

// A refusal: its number and its place, and nothing else.
fn refused(refusal: Refusal) -> [u32; 17] {
    let place = refusal.place;
    let mut words = [NOTHING; 17];
    words[0] = refusal.number;
    words[15] = list_of(place);
    words[16] = position_of(place);
    words
}

// What a found answer holds, in document 01's ten fields.
fn found(d: TenFields) -> [u32; 17] {
    [
        NOT_REFUSED,
        d.square.transform as u32,
        d.square.row,
        d.square.col,
        d.hits,
        d.edges,
        bits_of(d.weighted_score),
        bits_of(d.error_rate),
        bits_of(d.mean_confidence),
        bits_of(d.best_score),
        bits_of(d.runner_up_score),
        bits_of(d.margin),
        d.runner_up.transform as u32,
        d.runner_up.row,
        d.runner_up.col,
        NOTHING,
        NOTHING,
    ]
}

// Hard or soft decode.
pub(crate) fn words_of(a: AnyAnswer) -> [u32; 17] {
    let ten = ten_fields::ten_fields(a);
    match ten {
        Ok(d) => found(d),
        Err(r) => refused(r),
    }
}

// The lower word of a weight, and the upper one.
fn low(units: u64) -> u32 {
    (units % 4294967296) as u32
}

fn high(units: u64) -> u32 {
    (units / 4294967296) as u32
}

// What a found answer of exact decode holds.
fn exact_found(d: ExactDecoded) -> [u32; 17] {
    [
        NOT_REFUSED,
        d.square.transform as u32,
        d.square.row,
        d.square.col,
        d.hits,
        d.edges,
        low(d.weight),
        high(d.weight),
        low(d.total),
        high(d.total),
        bits_of(d.error_rate),
        d.runner_up_hits,
        d.runner_up.transform as u32,
        d.runner_up.row,
        d.runner_up.col,
        low(d.runner_up_weight),
        high(d.runner_up_weight),
    ]
}

// Exact decode.
pub(crate) fn words_of_exact(a: ExactAnswer) -> [u32; 17] {
    match a {
        Ok(d) => exact_found(d),
        Err(r) => refused(r),
    }
}

// What is located: no scores.
fn located(d: Located) -> [u32; 17] {
    [
        NOT_REFUSED,
        d.square.transform as u32,
        d.square.row,
        d.square.col,
        d.hits,
        NOTHING,
        NOTHING,
        NOTHING,
        NOTHING,
        NOTHING,
        d.runner_up_hits,
        NOTHING,
        d.runner_up.transform as u32,
        d.runner_up.row,
        d.runner_up.col,
        NOTHING,
        NOTHING,
    ]
}

// A list located without tables.
pub(crate) fn words_of_located(a: LocateAnswer) -> [u32; 17] {
    match a {
        Ok(d) => located(d),
        Err(r) => refused(r),
    }
}

// What match statistics counted.
fn counted(m: MatchStats) -> [u32; 17] {
    [
        NOT_REFUSED,
        NOTHING,
        NOTHING,
        NOTHING,
        m.hits,
        m.edges,
        NOTHING,
        bits_of(m.error_rate),
        bits_of(m.mean_confidence),
        NOTHING,
        NOTHING,
        NOTHING,
        NOTHING,
        NOTHING,
        NOTHING,
        NOTHING,
        NOTHING,
    ]
}

// Match statistics.
pub(crate) fn words_of_stats(a: StatsAnswer) -> [u32; 17] {
    match a {
        Ok(m) => counted(m),
        Err(r) => refused(r),
    }
}

// The share of misses, where there can be any.
fn rate(edges: u32, hits: u32) -> f32 {
    if 8192 < edges {
        return 0.0 / 0.0;
    }
    if edges < hits {
        return 0.0 / 0.0;
    }
    figures::rate(edges, hits)
}

// The mean confidence of so many hits.
fn mean(hits: u32, weight: f32) -> f32 {
    if 8192 < hits {
        return 0.0 / 0.0;
    }
    figures::mean(hits, weight)
}

// A winner under its transform, with its runner-up, of a list of so many edges. A tie inside the winner's transform is a runner-up whose place never shows, for the gate
// refuses: its row and column are left empty.
fn selected(transform: u8, w: Candidate, next: RunnerUp, edges: u32) -> [u32; 17] {
    let shown = next.hits != w.hits || next.transform != transform;
    [
        NOT_REFUSED,
        transform as u32,
        w.placing.row,
        w.placing.col,
        w.hits,
        edges,
        bits_of(w.score),
        bits_of(rate(edges, w.hits)),
        bits_of(mean(w.hits, w.weight)),
        NOTHING,
        next.hits,
        NOTHING,
        next.transform as u32,
        if shown { next.row } else { NOTHING },
        if shown { next.col } else { NOTHING },
        NOTHING,
        NOTHING,
    ]
}

// The transform at a place of the list; 255 where there is none.
fn listed(transforms: &[u8], place: usize) -> u8 {
    if place < transforms.len() {
        transforms[place]
    } else {
        255
    }
}

// Selection before the gate.
pub(crate) fn words_of_selection(s: Selection, transforms: &[u8], edges: u32) -> [u32; 17] {
    match s {
        Ok((w, next)) => { selected(listed(transforms, w.placing.listed), w, next, edges) }
        Err(r) => refused(r),
    }
}
