// One table of likelihood sums, by cell.
#![tactic(auto)]

ghost use Rattle.std.specs.Prelude.{◌≡◌, ◌<◌, length};
ghost use Rattle.laws.specs.Words.{eq_z};
ghost use Rattle.level.specs.Level.{level_best, level_around, level_of};
ghost use Rattle.level.specs.LevelLaws.{Top};

use best::around::around;
use best::first::first_best;

// The first cell of largest sum, that sum, how many cells have it, and the first of the second-best cells with its sum.
#[derive(Clone, Copy)]
pub struct LevelMax {
    pub cell: usize,
    pub top: i64,
    pub tied: usize,
    pub second: usize,
    pub under: i64,
}

// The first cell of largest sum.
fn level_best(sums: &[i64]) -> usize
    requires { 1 < length sums.now }
    ensures { (result ≡ level_best sums.now) × (result < length sums.now) }
{
    first_best(sums, |sum, top| sum > top)
}

// Whether a cell's sum is the given one.
pub fn is_tied(sum: i64, top: i64) -> bool
    ensures { result ≡ eq_z sum top }
{
    sum == top
}

// What one table says around its best cell: its sum, how many cells have it, and the first best of the other cells with its sum. Most cells stand below
// the second best so far, and no more is asked of them.
fn level_around(sums: &[i64], cell: usize) -> LevelMax
    requires { (1 < length sums.now) × (cell < length sums.now) × Top sums.now cell }
    ensures { result ≡ level_around sums.now cell }
{
    let told = around(sums, cell, |sum, other| sum > other, |_| true);
    LevelMax {
        cell,
        top: sums[cell],
        tied: told.tied,
        second: told.second,
        under: sums[told.second],
    }
}

// All that is asked of one table, in two walks: for the best cell, and for what is around it.
pub fn level_max(sums: &[i64]) -> LevelMax
    requires { 1 < length sums.now }
    ensures { result ≡ level_of sums.now }
{
    level_around(sums, level_best(sums))
}
