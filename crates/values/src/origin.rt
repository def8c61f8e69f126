// Two tables of values: the row-major first origin over the pairs of cells of greatest value. Since values add, it has the greatest value of all origins.
ghost use Rattle.std.specs.Prelude.{◌≡◌, ◌*◌, ◌<◌, length};
ghost use Rattle.laws.specs.Words.{origins};
ghost use Rattle.best.specs.CellTables.{Period};
ghost use Rattle.grid.specs.RowMajor.{lowest, row_major};
ghost use Rattle.values.specs.Values.{tied_value, first_origin};
ghost use Rattle.values.specs.ValuesLaws.{PairTop};

use crate::table::ValueMax;
use grid::origin::{key_of, row_major_first};
use laws::Periods;

// The best origin of a transform, as its key, from what its horizontal table a and its vertical table b say. Where each has one best cell, their pair is the only one, and no table is walked again.
pub fn first_origin(a: ValueMax, b: ValueMax, hs: &[u64], vs: &[u64], periods: Periods) -> usize
    requires { Period periods.h × Period periods.v × PairTop periods.h periods.v hs.now vs.now a b }
    ensures { result ≡ first_origin periods.h periods.v hs.now vs.now a b }
{
    if a.tied == 1 && b.tied == 1 {
        return key_of(a.cell, b.cell, periods);
    }
    row_major_first(|h| hs[h] == a.top, |v| vs[v] == b.top, periods)
}
