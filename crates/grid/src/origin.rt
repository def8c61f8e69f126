// Pairs of cells: the origin that a pair names, and the first one, row by row, over the pairs of best cells.
ghost use Rattle.std.specs.Prelude.{◌≡◌, ℕ, Bool, ◌*◌, ◌/◌, ◌≤◌, ◌<◌, leb};
ghost use Rattle.laws.specs.Words.{joint, origins};
ghost use Rattle.best.specs.CellTables.{Period};
ghost use Rattle.grid.specs.RowMajor.{lower, lowest, row_major, Tells};

use laws::Periods;

// The number below 3 · period with the residue s by 3 and l by the period, document 01's (334·s + 168·l) mod 501 at 167: it is l and as many steps of the
// period as its residue by 3 asks for, so no remainder by the period is taken.
fn joint_of(period: usize, s: usize, l: usize) -> usize
    requires { Period period × (s < 3) × (l < period) }
    ensures { (result ≡ joint period s l) × (result < 3 * period) }
{
    let third = period % 3;
    let steps = third * (s + 3 - l % 3) % 3;
    l + period * steps
}

// The row v / period of the vertical cell v in its table of three rows, by comparing.
fn short_of(v: usize, period: usize) -> usize
    requires { Period period × (v < 3 * period) }
    ensures { (result ≡ v / period) × (result < 3) × (result * period ≤ v) }
{
    if v < period {
        return 0;
    }
    if v < 2 * period {
        return 1;
    }
    2
}

// The key of the origin that the horizontal cell h and the vertical cell v name: row · columns + column. There are 3 · periods.v columns.
pub fn key_of(h: usize, v: usize, periods: Periods) -> usize
    requires { Period periods.h × Period periods.v × (h < 3 * periods.h) × (v < 3 * periods.v) }
    ensures { result ≡ (origins periods.h periods.v).key h v }
{
    let s = short_of(v, periods.v);
    let row = joint_of(periods.h, s, h / 3);
    let col = joint_of(periods.v, h % 3, v - s * periods.v);
    row * (3 * periods.v) + col
}

// Whether a key stands in row h / 3 or above it. No origin of the horizontal cell h stands higher up, so none of them is lower.
pub fn clears_row(key: usize, h: usize, periods: Periods) -> bool
    requires { Period periods.h × Period periods.v × (h < 3 * periods.h) }
    ensures { result ≡ leb key (h / 3 * (3 * periods.v)) }
{
    key <= h / 3 * (3 * periods.v)
}

// The lower of a key and that of the horizontal cell h with the vertical cell v.
pub fn lower_key(best: usize, h: usize, v: usize, periods: Periods) -> usize
    requires { Period periods.h × Period periods.v × (h < 3 * periods.h) × (v < 3 * periods.v) }
    ensures { result ≡ lower ((origins periods.h periods.v).key h v) best }
{
    best.min(key_of(h, v, periods))
}

// The least of start and the keys of the horizontal cell h with each vertical cell that passes. Where start clears the row of h, no vertical cell is asked.
fn lowest_key<V: Fn(usize) -> bool>(passes: &V, h: usize, start: usize, periods: Periods) -> usize
    requires period { Period periods.h × Period periods.v × (h < 3 * periods.h) }
    requires asked { (v : ℕ) → v < 3 * periods.v → V.pre passes.now v }
    ensures { (q : ℕ → Bool) → Tells (3 * periods.v) (V.post passes.now) q → result ≡ lowest q ((origins periods.h periods.v).key h) start (3 * periods.v) }
{
    if clears_row(start, h, periods) {
        return start;
    }
    let mut best = start;
    for v in 0..3 * periods.v {
        if passes(v) {
            best = lower_key(best, h, v, periods);
        }
    }
    best
}

// The row-major first origin over the pairs of a horizontal cell that passes `across` and a vertical cell that passes `down`, as its key; where there is no such pair, the number of origins.
pub fn row_major_first<H: Fn(usize) -> bool, V: Fn(usize) -> bool>(
    across: H,
    down: V,
    periods: Periods,
) -> usize
    requires period { Period periods.h × Period periods.v }
    requires across { (h : ℕ) → h < 3 * periods.h → H.pre across h }
    requires down { (v : ℕ) → v < 3 * periods.v → V.pre down v }
    ensures { (p q : ℕ → Bool) → Tells (3 * periods.h) (H.post across) p → Tells (3 * periods.v) (V.post down) q
        → result ≡ row_major (origins periods.h periods.v) (3 * periods.v) p q (3 * periods.h) }
{
    let mut best = 3 * periods.h * (3 * periods.v);
    for h in 0..3 * periods.h {
        if across(h) {
            best = lowest_key(&down, h, best, periods);
        }
    }
    best
}
