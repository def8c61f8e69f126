// One transform's two tables of values, folded into the exact scan.
ghost use Rattle.std.specs.Prelude.{◌≡◌, ◌≤◌, ◌<◌};
ghost use Rattle.best.specs.CellTables.{Period};
ghost use Rattle.values.specs.Values.{by_hits};
ghost use Rattle.folding.specs.Transform.{BestOk};
ghost use Rattle.exact_scan.specs.Exact.{value_tables, summary_by, better_of, taken, empty_exact, fold_exact, ExactReady};

use crate::kept::{ExactCandidate, ExactKept, ExactScan};
use board::edge::Placing;
use folding::transform::{Ranked, runner_up_within, summary};
use laws::Periods;
use scan::record::{empty, push};
use scan::scan::TransformSummary;
use values::origin::first_origin;
use values::table::{ValueMax, by_hits, value_max};

// A scan of no transforms.
pub fn empty_exact() -> ExactScan
    ensures { result ≡ empty_exact }
{
    let positions = empty();
    let best = None;
    ExactScan { positions, best }
}

// The summary of a transform by hits alone, from what its horizontal table a and its vertical table b say, with the best origin's key.
fn summarize(
    a: ValueMax,
    b: ValueMax,
    key: usize,
    periods: Periods,
    transform: u8,
) -> TransformSummary
    requires { Period periods.h × Period periods.v × BestOk periods.h periods.v (by_hits a) (by_hits b) × (key ≤ 2250000) }
    ensures { result ≡ summary_by periods.h periods.v transform (by_hits a) (by_hits b) key }
{
    let x = by_hits(a);
    let y = by_hits(b);
    let hits = x.count + y.count;
    let best = Ranked { hits, key };
    let within = runner_up_within(x, y, key, periods);
    summary(best, within, periods.v, transform)
}

// The better of two placings: the earlier one, unless the later one has a greater value.
fn better(k: ExactCandidate, c: ExactCandidate) -> ExactCandidate
    ensures { result ≡ better_of k c }
{
    if c.value <= k.value {
        return k;
    }
    c
}

// What is kept after the placing c of the next list position.
fn take(kept: ExactKept, c: ExactCandidate) -> ExactKept
    ensures { result ≡ taken kept c }
{
    match kept {
        None => Some(c),
        Some(k) => {
            let best = better(k, c);
            Some(best)
        }
    }
}

// The transform at the next list position: its summary is stored, and its best origin is offered.
pub fn fold_values<'a>(
    scan: ExactScan,
    hs: &'a [u64],
    vs: &'a [u64],
    periods: Periods,
    transform: u8,
) -> ExactScan
    requires { ExactReady periods.h periods.v (value_tables hs.now vs.now) scan }
    ensures { result ≡ fold_exact periods.h periods.v transform (value_tables hs.now vs.now) scan }
{
    let a = value_max(hs);
    let b = value_max(vs);
    let key = first_origin(a, b, hs, vs, periods);
    let value = a.top + b.top;
    let s = summarize(a, b, key, periods, transform);
    let old = scan.positions;
    let origin = s.best;
    let placing = Placing {
        listed: old.count,
        row: origin.row,
        col: origin.col,
    };
    let c = ExactCandidate { value, placing };
    let kept = scan.best;
    let best = take(kept, c);
    let nobody = None;
    let positions = push(old, s, nobody);
    ExactScan { positions, best }
}
