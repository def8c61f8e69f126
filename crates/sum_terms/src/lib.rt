// What a family of likelihood sums adds, by pattern and short class, as `terms` has it of counts; and whether it adds anything.
#![tactic(auto)]

ghost use Rattle.std.specs.Prelude.{◌≡◌, ◌<◌};
ghost use Rattle.sum_terms.specs.SumTerms.{places_z, term_z, row_z, Twelve, some_sum, TermsZ};

// What the six groups of a family add at short class s of a class that reads the pattern: the match sum of a group that agrees, the mismatch sum of
// one that does not. The match groups stand from `from` on, the mismatch groups from `also` on.
fn fold_sum(sums: &[i64], from: usize, also: usize, pattern: u8, s: u32) -> i64
    requires twelve { Twelve from also sums.now }
    requires s_bound { s < 3 }
    ensures { result ≡ term_z 6 (places_z from sums.now) (places_z also sums.now) pattern s }
{
    let mut sum: i64 = 0;
    for j in 0..6u32 {
        let predicted = board::pattern::pattern_bit(pattern, (s + j / 2) % 3);
        let start = if predicted as u32 == j % 2 {
            from
        } else {
            also
        };
        sum = sum + sums[start + j as usize];
    }
    sum
}

// The row of one pattern: the term of each short class.
fn fold_sum_row(sums: &[i64], from: usize, also: usize, pattern: u8) -> [i64; 3]
    requires { Twelve from also sums.now }
    ensures { result ≡ row_z (places_z from sums.now) (places_z also sums.now) pattern }
{
    let a = fold_sum(sums, from, also, pattern, 0);
    let b = fold_sum(sums, from, also, pattern, 1);
    let c = fold_sum(sums, from, also, pattern, 2);
    [a, b, c]
}

// The table of terms of a family, a row for each pattern.
pub fn fold_sums(sums: &[i64], from: usize, also: usize) -> [[i64; 3]; 8]
    requires { Twelve from also sums.now }
    ensures { TermsZ (places_z from sums.now) (places_z also sums.now) result }
{
    let mut terms = [[0i64; 3]; 8];
    for pattern in 0..8 {
        terms[pattern] = fold_sum_row(sums, from, also, pattern as u8);
    }
    terms
}

// Whether one of the twelve sums of a family is not 0.
pub fn some_sum(sums: &[i64], from: usize, also: usize) -> bool
    requires { Twelve from also sums.now }
    ensures { result ≡ some_sum 6 (places_z from sums.now) (places_z also sums.now) }
{
    for j in 0..6 {
        if sums[from + j] != 0 {
            return true;
        }
        if sums[also + j] != 0 {
            return true;
        }
    }
    false
}
