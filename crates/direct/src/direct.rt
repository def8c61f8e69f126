// The direct scan: every origin of one transform in row-major order, each tested against the limit.
ghost use Rattle.std.specs.Prelude.{◌≡◌, ◌+◌, ◌*◌, ◌%◌, ◌≤◌, ◌<◌};
ghost use Rattle.best.specs.CellTables.{Period, TablesOk, cells};
ghost use Rattle.scan.specs.Scan.{offered_within};
ghost use Rattle.direct.specs.Direct.{tried};

use board::edge::Placing;
use laws::Periods;
use scan::record::{is_ahead, lead_of, offer_within};
use scan::scan::{Asked, Candidate, Kept};

// The next class by n: past the last one it starts again, so no remainder is taken.
fn next_class(k: usize, n: usize) -> usize
    requires { (k < n) × (n ≤ 500) }
    ensures { (result ≡ (k + 1) % n) × (result < n) }
{
    let next = k + 1;
    if next == n { 0 } else { next }
}

// One origin offered with its score.
fn offer_origin(
    kept: Kept,
    hits: u32,
    score: f32,
    weight: f32,
    row: usize,
    col: usize,
    listed: usize,
    asked: Asked,
) -> Kept
    requires { (hits ≤ asked.edges) × (asked.edges ≤ 8192) × (row ≤ 1500) × (col ≤ 1500) }
    ensures { result ≡ offered_within asked.edges asked.error_limit kept (record { hits = hits; score = score; weight = weight; placing = record { listed = listed; row = row; col = col } }) }
{
    let r = row as u32;
    let c = col as u32;
    let placing = Placing {
        listed,
        row: r,
        col: c,
    };
    let found = Candidate {
        hits,
        score,
        weight,
        placing,
    };
    offer_within(kept, found, asked)
}

// The origins of one row, whose class by periods.h is ha and by 3 is va. What is kept is copied only where an origin is ahead of it, and one with fewer hits is
// passed over before any division.
fn scan_row(
    hc: &[u32],
    hw: &[f32],
    vc: &[u32],
    vw: &[f32],
    periods: Periods,
    row: usize,
    ha: usize,
    va: usize,
    asked: Asked,
    listed: usize,
    start: Kept,
) -> Kept
    requires period { Period periods.h × Period periods.v × TablesOk periods.h periods.v asked.edges (cells hc.now hw.now vc.now vw.now) }
    requires row_bound { (row < 3 * periods.h) × (ha ≡ row % periods.h) × (va ≡ row % 3) }
    ensures { result ≡ tried periods.h periods.v asked.edges asked.confidence asked.error_limit listed (cells hc.now hw.now vc.now vw.now) (row * (3 * periods.v)) start (3 * periods.v) }
{
    let hbase = ha * 3;
    let vbase = va * periods.v;
    let mut kept = start;
    let mut lead = lead_of(start);
    let mut hb: usize = 0;
    let mut vb: usize = 0;
    let mut col: usize = 0;
    while col < vc.len() {
        let h = hbase + hb;
        let v = vbase + vb;
        let hits = hc[h] + vc[v];
        if hits >= lead.hits {
            let weight = hw[h] + vw[v];
            let score = weight / asked.confidence;
            if is_ahead(lead, hits, score) {
                kept = offer_origin(kept, hits, score, weight, row, col, listed, asked);
                lead = lead_of(kept);
            }
        }
        hb = next_class(hb, 3);
        vb = next_class(vb, periods.v);
        col += 1;
    }
    kept
}

// All origins in row-major order.
pub fn scan_direct(
    hc: &[u32],
    hw: &[f32],
    vc: &[u32],
    vw: &[f32],
    periods: Periods,
    asked: Asked,
    listed: usize,
    start: Kept,
) -> Kept
    requires { Period periods.h × Period periods.v × TablesOk periods.h periods.v asked.edges (cells hc.now hw.now vc.now vw.now) }
    ensures { result ≡ tried periods.h periods.v asked.edges asked.confidence asked.error_limit listed (cells hc.now hw.now vc.now vw.now) 0 start (3 * periods.h * (3 * periods.v)) }
{
    let mut kept = start;
    let mut ha: usize = 0;
    let mut va: usize = 0;
    let mut row: usize = 0;
    while row < hc.len() {
        kept = scan_row(hc, hw, vc, vw, periods, row, ha, va, asked, listed, kept);
        ha = next_class(ha, periods.h);
        va = next_class(va, 3);
        row += 1;
    }
    kept
}
