// The steps of the scan record: a candidate is offered, and a transform's two best are folded in.
ghost use Rattle.std.specs.Prelude.{◌≡◌, ◌≤◌, ◌<◌};
ghost use Rattle.best.specs.CellTables.{Period};
ghost use Rattle.level.specs.Sums.{SumsOk, sums};
ghost use Rattle.soft.specs.Scan.{yields, soft_candidate, soft_empty, soft_offered, soft_folded};

use board::edge::Placing;
use laws::Periods;
use margin::slots::{Slot, SoftCandidate, SoftScan};
use pair::pair::two_best;

// A scan of no transforms.
pub fn empty() -> SoftScan
    ensures { result ≡ soft_empty }
{
    let first = None;
    let second = None;
    SoftScan {
        first,
        second,
        count: 0,
    }
}

// Whether a candidate of that total takes a place: it is free, or its holder's total is strictly smaller.
fn takes(slot: Slot, total: f32) -> bool
    ensures { result ≡ yields slot total }
{
    match slot {
        None => true,
        Some(c) => total > c.total,
    }
}

// The scan after one candidate more: strictly greater takes first place and moves the old first to second, else strictly greater than second takes second.
fn offer(scan: SoftScan, c: SoftCandidate) -> SoftScan
    ensures { result ≡ soft_offered scan c }
{
    let first = scan.first;
    let second = scan.second;
    let count = scan.count;
    if takes(first, c.total) {
        let best = Some(c);
        return SoftScan {
            first: best,
            second: first,
            count,
        };
    }
    if takes(second, c.total) {
        let next = Some(c);
        return SoftScan {
            first,
            second: next,
            count,
        };
    }
    scan
}

// The origin of a key at a list position, with the sum of its two cells as its total.
fn candidate_of(
    hs: &[i64],
    vs: &[i64],
    key: usize,
    listed: usize,
    periods: Periods,
) -> SoftCandidate
    requires { Period periods.h × Period periods.v × SumsOk periods.h periods.v hs.now vs.now × (key ≤ 2250000) }
    ensures { result ≡ soft_candidate periods.h periods.v (sums hs.now vs.now) listed key }
{
    let row = key / (3 * periods.v);
    let col = key % (3 * periods.v);
    let h = (row % periods.h) * 3 + col % 3;
    let v = (row % 3) * periods.v + col % periods.v;
    let sum = hs[h] + vs[v];
    let total = likelihood::dequantize_ll(sum);
    let r = row as u32;
    let c = col as u32;
    let placing = Placing {
        listed,
        row: r,
        col: c,
    };
    SoftCandidate { placing, total }
}

// The transform at the next list position: its winner is offered, then its second.
pub fn fold_transform(scan: SoftScan, hs: &[i64], vs: &[i64], periods: Periods) -> SoftScan
    requires period { Period periods.h × Period periods.v × SumsOk periods.h periods.v hs.now vs.now }
    requires count_bound { scan.count < 8 }
    ensures { result ≡ soft_folded periods.h periods.v (sums hs.now vs.now) scan }
{
    let listed = scan.count;
    let two = two_best(hs, vs, periods);
    let winner = candidate_of(hs, vs, two.winner, listed, periods);
    let second = candidate_of(hs, vs, two.second, listed, periods);
    let one = offer(scan, winner);
    let both = offer(one, second);
    let first = both.first;
    let second = both.second;
    let count = listed + 1;
    SoftScan {
        first,
        second,
        count,
    }
}
