// The origins of a part, offered in the order of row number and then column number. The classes of a column are counted on, and no remainder is taken for each.
ghost use Rattle.std.specs.Prelude.{◌≡◌, ◌+◌, ◌*◌, ◌-◌, ◌%◌, ◌≤◌, ◌<◌};
ghost use Rattle.part.specs.Part.{RunsOk, in_runs};
ghost use Rattle.laws.specs.Words.{all};
ghost use Rattle.part_scan.specs.Kept.{walked};
ghost use Rattle.part_scan.specs.Walk.{TablesReady, number_value, first_number, in_cols, in_both};

use crate::kept::{Offer, PartKept, keep};
use part::Runs;

// The class after x of n classes: the first one again after the last.
fn next_class(x: usize, n: usize) -> usize
    requires { (x < n) × (n ≤ 167) }
    ensures { result ≡ (x + 1) % n }
{
    if x + 1 < n {
        return x + 1;
    }
    0
}

// The origins of one row from a column on, up to another: each is read from two cells and offered.
fn offer_cols<'a>(
    kept: PartKept,
    hs: &'a [u64],
    vs: &'a [u64],
    listed: usize,
    row: usize,
    from: usize,
    to: usize,
) -> PartKept
    requires tables_ready { TablesReady hs.now vs.now }
    requires listed_bound { (listed < 8) × (row < 501) × (from ≤ to) × (to ≤ 501) }
    ensures { result ≡ walked all (number_value hs.now vs.now) kept (first_number listed row + from) (to - from) }
{
    let base = (listed * 501 + row) * 501;
    let h = row % 167 * 3;
    let v = row % 3 * 167;
    let mut held = kept;
    let mut short: usize = from % 3;
    let mut long: usize = from % 167;
    let mut col: usize = from;
    while col < to {
        let value = hs[h + short] + vs[v + long];
        let number = base + col;
        let c = Offer { value, number };
        held = keep(held, c);
        short = next_class(short, 3);
        long = next_class(long, 167);
        col += 1;
    }
    held
}

// The origins of one row whose columns are in the two runs.
fn offer_row<'a>(
    kept: PartKept,
    hs: &'a [u64],
    vs: &'a [u64],
    listed: usize,
    row: usize,
    cols: Runs,
) -> PartKept
    requires tables_ready { TablesReady hs.now vs.now }
    requires listed_bound { (listed < 8) × (row < 501) × RunsOk cols }
    ensures { result ≡ walked (in_cols cols) (number_value hs.now vs.now) kept (first_number listed row) 501 }
{
    let one = offer_cols(kept, hs, vs, listed, row, 0, cols.first);
    offer_cols(one, hs, vs, listed, row, cols.from, cols.to)
}

// The rows from one on, up to another, with the columns in the two runs.
fn offer_rows<'a>(
    kept: PartKept,
    hs: &'a [u64],
    vs: &'a [u64],
    listed: usize,
    cols: Runs,
    from: usize,
    to: usize,
) -> PartKept
    requires tables_ready { TablesReady hs.now vs.now }
    requires listed_bound { (listed < 8) × RunsOk cols × (from ≤ to) × (to ≤ 501) }
    ensures { result ≡ walked (in_cols cols) (number_value hs.now vs.now) kept (first_number listed from) ((to - from) * 501) }
{
    let mut held = kept;
    let mut row: usize = from;
    while row < to {
        held = offer_row(held, hs, vs, listed, row, cols);
        row += 1;
    }
    held
}

// The origins of a part at a list position, with the rows in two runs and the columns in two runs: what is kept after them.
pub fn offer_origins<'a>(
    kept: PartKept,
    hs: &'a [u64],
    vs: &'a [u64],
    listed: usize,
    rows: Runs,
    cols: Runs,
) -> PartKept
    requires tables_ready { TablesReady hs.now vs.now }
    requires listed_bound { (listed < 8) × RunsOk rows × RunsOk cols }
    ensures { result ≡ walked (in_both rows cols) (number_value hs.now vs.now) kept (first_number listed 0) 251001 }
{
    let one = offer_rows(kept, hs, vs, listed, cols, 0, rows.first);
    offer_rows(one, hs, vs, listed, cols, rows.from, rows.to)
}
