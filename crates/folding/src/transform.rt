// One transform's four tables, folded into the scan.
ghost use Rattle.std.specs.Prelude.{◌≡◌, ◌+◌, ◌≤◌};
ghost use Rattle.laws.specs.Words.{origins};
ghost use Rattle.best.specs.CellTables.{Period, TablesOk, cells};
ghost use Rattle.folding.specs.Transform.{BestOk, first_of, runner_up_within, competitor_of, summary_of, offered_by, fold_transform, FoldReady};
ghost use Rattle.folding.specs.TransformLaws.{PairOk};

use best::lex::{LexMax, is_optimal, lex_max};
use board::edge::Placing;
use direct::direct::scan_direct;
use grid::origin::{key_of, row_major_first};
use laws::Periods;
use scan::record::{offer, over_limit, push};
use scan::scan::{Asked, Candidate, HardScan, Kept, RunnerUp, TransformSummary};

// Up to so many pairs of optimal cells the best origin is a transform's only candidate; beyond, every origin is tried.
const SEPARATION_PRODUCT_CAP: usize = 1024;

// An origin by its key, with its hits.
#[derive(Clone, Copy)]
pub struct Ranked {
    pub hits: u32,
    pub key: usize,
}

// The best origin of a transform, as its key, from what its horizontal table a and its vertical table b say: the row-major first over the optimal pairs.
// Where each table has one optimal cell, their pair is the only one, and no table is walked again.
fn best_origin(
    a: LexMax,
    b: LexMax,
    hc: &[u32],
    hw: &[f32],
    vc: &[u32],
    vw: &[f32],
    periods: Periods,
) -> usize
    requires { Period periods.h × Period periods.v × PairOk periods.h periods.v (cells hc.now hw.now vc.now vw.now) a b }
    ensures { result ≡ first_of (origins periods.h periods.v) (cells hc.now hw.now vc.now vw.now) a b }
{
    if a.optimal == 1 && b.optimal == 1 {
        return key_of(a.cell, b.cell, periods);
    }
    row_major_first(
        |h| is_optimal(hc[h], hw[h], a.count, a.weight),
        |v| is_optimal(vc[v], vw[v], b.count, b.weight),
        periods,
    )
}

// The runner-up inside a transform whose best origin is `first`, from what its horizontal table a and its vertical table b say.
pub fn runner_up_within(a: LexMax, b: LexMax, first: usize, periods: Periods) -> Ranked
    requires { Period periods.h × Period periods.v × BestOk periods.h periods.v a b }
    ensures { result ≡ runner_up_within periods.h periods.v a b first }
{
    if a.tied * b.tied > 1 {
        let hits = a.count + b.count;
        return Ranked { hits, key: first };
    }
    let across = a.under + b.count;
    let down = a.count + b.under;
    if down > across {
        let key = key_of(a.cell, b.second, periods);
        return Ranked { hits: down, key };
    }
    let key = key_of(a.second, b.cell, periods);
    Ranked { hits: across, key }
}

// An origin of a transform by row and column, over the vertical period.
fn competitor(origin: Ranked, period: usize, transform: u8) -> RunnerUp
    requires { Period period × (origin.key ≤ 2250000) }
    ensures { result ≡ competitor_of period transform origin }
{
    let columns = 3 * period;
    let row = (origin.key / columns) as u32;
    let col = (origin.key % columns) as u32;
    RunnerUp {
        hits: origin.hits,
        row,
        col,
        transform,
    }
}

// The summary of a transform from its best origin and the runner-up within it.
pub fn summary(first: Ranked, other: Ranked, period: usize, transform: u8) -> TransformSummary
    requires { Period period × (first.key ≤ 2250000) × (other.key ≤ 2250000) }
    ensures { result ≡ summary_of period first other transform }
{
    let best = competitor(first, period, transform);
    let within = competitor(other, period, transform);
    TransformSummary { best, within }
}

// What is kept after the transform at a list position: no candidate over the limit, the best origin up to the cap of optimal pairs, else all origins.
fn offer_transform(
    kept: Kept,
    a: LexMax,
    b: LexMax,
    key: usize,
    hc: &[u32],
    hw: &[f32],
    vc: &[u32],
    vw: &[f32],
    periods: Periods,
    asked: Asked,
    listed: usize,
) -> Kept
    requires period { Period periods.h × Period periods.v × TablesOk periods.h periods.v asked.edges (cells hc.now hw.now vc.now vw.now) }
    requires best_ok { BestOk periods.h periods.v a b × (a.count + b.count ≤ asked.edges) × (key ≤ 2250000) }
    ensures { result ≡ offered_by periods.h periods.v asked.edges asked.confidence asked.error_limit listed (cells hc.now hw.now vc.now vw.now) a b key kept }
{
    let hits = a.count + b.count;
    if over_limit(asked.edges, hits, asked.error_limit) {
        return kept;
    }
    if a.optimal * b.optimal > SEPARATION_PRODUCT_CAP {
        return scan_direct(hc, hw, vc, vw, periods, asked, listed, kept);
    }
    let weight = a.weight + b.weight;
    let score = weight / asked.confidence;
    let columns = 3 * periods.v;
    let row = (key / columns) as u32;
    let col = (key % columns) as u32;
    let placing = Placing { listed, row, col };
    let c = Candidate {
        hits,
        score,
        weight,
        placing,
    };
    offer(kept, c)
}

// The transform at the next list position: its summary is stored, over the limit or not, and its candidate is offered.
pub fn fold_transform<'a>(
    scan: HardScan,
    hc: &'a [u32],
    hw: &'a [f32],
    vc: &'a [u32],
    vw: &'a [f32],
    periods: Periods,
    transform: u8,
    asked: Asked,
) -> HardScan
    requires { FoldReady periods.h periods.v asked.edges (cells hc.now hw.now vc.now vw.now) scan }
    ensures { result ≡ fold_transform periods.h periods.v asked.edges asked.confidence asked.error_limit transform (cells hc.now hw.now vc.now vw.now) scan }
{
    let a = lex_max(hc, hw);
    let b = lex_max(vc, vw);
    let key = best_origin(a, b, hc, hw, vc, vw, periods);
    let hits = a.count + b.count;
    let best = Ranked { hits, key };
    let within = runner_up_within(a, b, key, periods);
    let s = summary(best, within, periods.v, transform);
    let listed = scan.count;
    let old = scan.best;
    let kept = offer_transform(old, a, b, key, hc, hw, vc, vw, periods, asked, listed);
    push(scan, s, kept)
}
