// Two tables of likelihood sums: the winner of a transform and its second, each as the key of its origin.
ghost use Rattle.std.specs.Prelude.{◌≡◌, not, ◌&&◌, ◌*◌, ◌<◌, eqb, length};
ghost use Rattle.laws.specs.Words.{origins};
ghost use Rattle.best.specs.CellTables.{Period};
ghost use Rattle.grid.specs.RowMajor.{lowest, row_major};
ghost use Rattle.level.specs.Level.{tied_sum};
ghost use Rattle.level.specs.Sums.{SumsOk};
ghost use Rattle.pair.specs.Pair.{LevelsOk, filled, other_in, other_pair, second_pair, two_of};

use grid::origin::{key_of, row_major_first};
use laws::Periods;
use level::{LevelMax, is_tied, level_max};

// The keys of a transform's winner and of its second.
#[derive(Clone, Copy)]
pub struct TwoBest {
    pub winner: usize,
    pub second: usize,
}

// One pair more in the search for another pair than the winner: it is taken where none was found before it, its cells are tied and it is not the winner.
// Its key is worked out only where it may be taken.
fn fill(
    found: usize,
    none: usize,
    tied: bool,
    h: usize,
    v: usize,
    winner: usize,
    periods: Periods,
) -> usize
    requires { Period periods.h × Period periods.v × (h < 3 * periods.h) × (v < 3 * periods.v) }
    ensures { result ≡ filled none found (tied && not (eqb ((origins periods.h periods.v).key h v) winner)) ((origins periods.h periods.v).key h v) }
{
    if found == none && tied {
        let key = key_of(h, v, periods);
        if key != winner {
            return key;
        }
    }
    found
}

// The same search over all vertical cells of sum top with the horizontal cell h. Where a pair was found before, no vertical cell is looked at.
fn other_in(
    sums: &[i64],
    top: i64,
    h: usize,
    winner: usize,
    start: usize,
    periods: Periods,
) -> usize
    requires { Period periods.h × Period periods.v × (length sums.now ≡ 3 * periods.v) × (h < 3 * periods.h) }
    ensures { result ≡ other_in (origins periods.h periods.v) (tied_sum sums.now top) h winner start (length sums.now) }
{
    let none = 3 * periods.h * (3 * periods.v);
    if start != none {
        return start;
    }
    let mut found = start;
    for (v, &sum) in sums.iter().enumerate() {
        let tied = is_tied(sum, top);
        found = fill(found, none, tied, h, v, winner, periods);
    }
    found
}

// The first pair of a horizontal cell of sum ht and a vertical cell of sum vt, by horizontal then vertical position, that is not the winner.
fn other_pair(hs: &[i64], ht: i64, vs: &[i64], vt: i64, winner: usize, periods: Periods) -> usize
    requires { Period periods.h × Period periods.v × (length hs.now ≡ 3 * periods.h) × (length vs.now ≡ 3 * periods.v) }
    ensures { result ≡ other_pair (origins periods.h periods.v) (length vs.now) (tied_sum hs.now ht) (tied_sum vs.now vt) winner (length hs.now) }
{
    let mut found = 3 * periods.h * (3 * periods.v);
    for (h, &sum) in hs.iter().enumerate() {
        if is_tied(sum, ht) {
            found = other_in(vs, vt, h, winner, found, periods);
        }
    }
    found
}

// The better of the two pairs with one second-best cell, horizontal on a tie.
fn second_pair(a: LevelMax, b: LevelMax, periods: Periods) -> usize
    requires { Period periods.h × Period periods.v × LevelsOk periods.h periods.v a b }
    ensures { result ≡ second_pair (origins periods.h periods.v) a b }
{
    let across = a.under + b.top;
    let down = a.top + b.under;
    if across < down {
        return key_of(a.cell, b.second, periods);
    }
    key_of(a.second, b.cell, periods)
}

// The winner of a transform and its second. Where one pair is alone at the top, it is the pair of the best cells, and no table is walked again.
pub fn two_best(hs: &[i64], vs: &[i64], periods: Periods) -> TwoBest
    requires { Period periods.h × Period periods.v × SumsOk periods.h periods.v hs.now vs.now }
    ensures { result ≡ two_of (origins periods.h periods.v) hs.now vs.now }
{
    let a = level_max(hs);
    let b = level_max(vs);
    let pairs = a.tied * b.tied;
    if pairs > 1 {
        let winner = row_major_first(
            |h| is_tied(hs[h], a.top),
            |v| is_tied(vs[v], b.top),
            periods,
        );
        let second = other_pair(hs, a.top, vs, b.top, winner, periods);
        return TwoBest { winner, second };
    }
    let winner = key_of(a.cell, b.cell, periods);
    let second = second_pair(a, b, periods);
    TwoBest { winner, second }
}
