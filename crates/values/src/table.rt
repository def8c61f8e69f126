// One table of values: its first best cell, how many cells are as good, and its second-best cell by hits.
ghost use Rattle.std.specs.Prelude.{◌≡◌, ◌≤◌, ◌<◌, length};
ghost use Rattle.values.specs.Values.{hits_of, weight_of, value_best, value_around, value_of, by_hits};
ghost use Rattle.values.specs.ValuesLaws.{Top};

use best::around::around;
use best::first::first_best;
use best::lex::LexMax;
use unit_terms::HIT;

// What one table says: the first cell of greatest value, that value, how many cells have it, how many have as many hits, and the first best of the other cells by hits, with its hits.
#[derive(Clone, Copy)]
pub struct ValueMax {
    pub cell: usize,
    pub top: u64,
    pub tied: usize,
    pub held: usize,
    pub second: usize,
    pub under: u64,
}

// The hits of a value.
pub fn hits_of(value: u64) -> u64
    ensures { result ≡ hits_of value }
{
    value / HIT
}

// The weight of a value, in units.
pub fn weight_of(value: u64) -> u64
    ensures { result ≡ weight_of value }
{
    value % HIT
}

// The first cell of greatest value.
fn value_best(values: &[u64]) -> usize
    requires { 1 < length values.now }
    ensures { (result ≡ value_best values.now) × (result < length values.now) }
{
    first_best(values, |value, top| value > top)
}

// What one table says around its best cell. Most cells have fewer hits than the second best so far, and no more is asked of them.
fn value_around(values: &[u64], cell: usize) -> ValueMax
    requires { (1 < length values.now) × (cell < length values.now) × Top values.now cell }
    ensures { result ≡ value_around values.now cell }
{
    let top = values[cell];
    let told = around(
        values,
        cell,
        |value, other| hits_of(value) > hits_of(other),
        |i| values[i] == top,
    );
    ValueMax {
        cell,
        top,
        tied: told.alike,
        held: told.tied,
        second: told.second,
        under: hits_of(values[told.second]),
    }
}

// All that is asked of one table, in two walks: for the best cell, and for what is around it.
pub fn value_max(values: &[u64]) -> ValueMax
    requires { 1 < length values.now }
    ensures { result ≡ value_of values.now }
{
    value_around(values, value_best(values))
}

// What a table says by hits alone, as document 01's runner-up asks it. Its weight is not asked, and stands as 0.
pub fn by_hits(a: ValueMax) -> LexMax
    requires { (hits_of a.top ≤ 8192) × (a.under ≤ 8192) }
    ensures { result ≡ by_hits a }
{
    let count = hits_of(a.top) as u32;
    let under = a.under as u32;
    LexMax {
        cell: a.cell,
        count,
        weight: 0.0,
        tied: a.held,
        optimal: a.tied,
        second: a.second,
        under,
    }
}
