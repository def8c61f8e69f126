// Values: hits and weight of edges as one number, which adds up without rounding. What an edge is worth, and what a family of values adds, by pattern and
// short class, as `terms` has it of counts.
#![tactic(auto)]

ghost use Rattle.std.specs.Prelude.{◌≡◌, ◌+◌, ◌<◌};
ghost use Rattle.laws.specs.Words.{fold, all, Weight};
ghost use Rattle.terms.specs.Terms.{places_n, term_c};
ghost use Rattle.unit_terms.specs.Values.{value_of};
ghost use Rattle.unit_terms.specs.UnitTerms.{SixValues, value_row, ValueTerms};

// What a hit counts for before its units, 2^38: more than the units of a whole list.
pub const HIT: u64 = 274877906944;

// The value of an edge with this confidence: a hit, and the confidence in units of 2^-24.
pub fn value_of(confidence: f32) -> u64
    requires { Weight confidence 1 }
    ensures { result ≡ value_of confidence }
{
    let units = likelihood::quantize_ll(confidence) as u64;
    HIT + units
}

// What the six groups from `from` on hold together. An edge's value is never 0, so where this is 0 they hold no edge.
pub fn values_held(values: &[u64], from: usize) -> u64
    requires { SixValues from values.now }
    ensures { result ≡ fold ◌+◌ 0 6 all (places_n from values.now) }
{
    let mut sum: u64 = 0;
    for i in 0..6 {
        sum += values[from + i];
    }
    sum
}

// What the six groups from `from` on add at short class s of a class that reads the pattern: the groups that agree. A group of misses adds nothing.
fn fold_value(values: &[u64], from: usize, pattern: u8, s: u32) -> u64
    requires six_values { SixValues from values.now }
    requires s_bound { s < 3 }
    ensures { result ≡ term_c 6 (places_n from values.now) pattern s }
{
    let mut sum: u64 = 0;
    for j in 0..6u32 {
        let predicted = board::pattern::pattern_bit(pattern, (s + j / 2) % 3);
        if predicted as u32 == j % 2 {
            sum += values[from + j as usize];
        }
    }
    sum
}

// The row of one pattern: the term of each short class.
fn fold_value_row(values: &[u64], from: usize, pattern: u8) -> [u64; 3]
    requires { SixValues from values.now }
    ensures { result ≡ value_row (places_n from values.now) pattern }
{
    let a = fold_value(values, from, pattern, 0);
    let b = fold_value(values, from, pattern, 1);
    let c = fold_value(values, from, pattern, 2);
    [a, b, c]
}

// The table of terms of a family, a row for each pattern.
pub fn fold_values(values: &[u64], from: usize) -> [[u64; 3]; 8]
    requires { SixValues from values.now }
    ensures { ValueTerms (places_n from values.now) result }
{
    let mut terms = [[0u64; 3]; 8];
    for pattern in 0..8 {
        terms[pattern] = fold_value_row(values, from, pattern as u8);
    }
    terms
}
