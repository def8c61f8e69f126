// One table of counts and weights: its first best cell, how many cells are as good, and its second-best cell.
ghost use Rattle.std.specs.Prelude.{◌≡◌, ◌<◌, length};
ghost use Rattle.best.specs.Lex.{TableOk, wins, is_optimal, lex_best, lex_around, lex_of};
ghost use Rattle.best.specs.LexLaws.{Most};

use crate::around::around;

// What one table says: the first cell of largest count and then largest weight, both, how many cells have the count and how many have both,
// and the first best of the other cells by count, with its count.
#[derive(Clone, Copy)]
pub struct LexMax {
    pub cell: usize,
    pub count: u32,
    pub weight: f32,
    pub tied: usize,
    pub optimal: usize,
    pub second: usize,
    pub under: u32,
}

// Whether (c, w) beats (d, v): a larger count, or the same count and a larger weight.
pub fn beats(c: u32, w: f32, d: u32, v: f32) -> bool
    ensures { result ≡ wins c w d v }
{
    c > d || (c == d && w > v)
}

// The first cell of largest count and, of those, largest weight. Most cells stand below the largest count so far, and their weight is not looked at.
// `first_best` would hand both to its test, and read every weight; asked by numbers of cells, which reads the best cell's count anew each time, it took half as long again.
fn lex_best(counts: &[u32], weights: &[f32]) -> usize
    requires { TableOk counts.now weights.now }
    ensures { (result ≡ lex_best counts.now weights.now) × (result < length counts.now) }
{
    let mut best = 0;
    let mut top = counts[0];
    let mut heavy = weights[0];
    for (i, &c) in counts.iter().enumerate() {
        if c >= top {
            let w = weights[i];
            if beats(c, w, top, heavy) {
                best = i;
                top = c;
                heavy = w;
            }
        }
    }
    best
}

// Whether a cell has both the count and the weight.
pub fn is_optimal(c: u32, w: f32, top: u32, heavy: f32) -> bool
    ensures { result ≡ is_optimal c w top heavy }
{
    c == top && w == heavy
}

// What one table says around its best cell: its count and weight, how many cells have the count and how many have both, and the first best of the other
// cells by count. Most cells stand below the second best so far, and no more is asked of them.
fn lex_around(counts: &[u32], weights: &[f32], cell: usize) -> LexMax
    requires { TableOk counts.now weights.now × (cell < length counts.now) × Most counts.now cell }
    ensures { result ≡ lex_around counts.now weights.now cell }
{
    let heavy = weights[cell];
    let told = around(counts, cell, |c, d| c > d, |i| weights[i] == heavy);
    LexMax {
        cell,
        count: counts[cell],
        weight: heavy,
        tied: told.tied,
        optimal: told.alike,
        second: told.second,
        under: counts[told.second],
    }
}

// All that is asked of one table, in two walks: for the best cell, and for what is around it.
pub fn lex_max(counts: &[u32], weights: &[f32]) -> LexMax
    requires { TableOk counts.now weights.now }
    ensures { result ≡ lex_of counts.now weights.now }
{
    lex_around(counts, weights, lex_best(counts, weights))
}
