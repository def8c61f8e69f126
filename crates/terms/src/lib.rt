// Family terms: what the six groups of one long residue add to a class, by the pattern that the class reads and its short class.
#![tactic(auto)]

ghost use Rattle.std.specs.Prelude.{◌≡◌, ◌+◌, ◌≤◌, ◌<◌, length};
ghost use Rattle.laws.specs.Words.{fold, all};
ghost use Rattle.terms.specs.Terms.{places_n, places_f, term, row, Six, Terms};

// What a family adds to one cell.
#[derive(Clone, Copy)]
pub struct FamilyTerm {
    pub count: u32,
    pub weight: f32,
}

// The terms of a family, a row for each pattern and in it a term for each short class.
pub type FamilyTerms = [[FamilyTerm; 3]; 8];

// How many edges the six groups from `from` on hold together.
pub fn edges_held(counts: &[u32], from: usize) -> u32
    requires { (from + 6 ≤ length counts.now) × (fold ◌+◌ 0 6 all (places_n from counts.now) ≤ 8192) }
    ensures { result ≡ fold ◌+◌ 0 6 all (places_n from counts.now) }
{
    let a = counts[from] + counts[from + 1];
    let b = counts[from + 2] + counts[from + 3];
    let c = counts[from + 4] + counts[from + 5];
    a + b + c
}

// What the six groups from `from` on add at short class s of a class that reads the pattern: non-empty groups, in order.
fn fold_term(counts: &[u32], weights: &[f32], from: usize, pattern: u8, s: u32) -> FamilyTerm
    requires six { Six from counts.now weights.now }
    requires s_bound { s < 3 }
    ensures { result ≡ term (places_n from counts.now) (places_f from weights.now) pattern s }
{
    let mut count: u32 = 0;
    let mut weight: f32 = 0.0;
    for j in 0..6u32 {
        let at = from + j as usize;
        let here = counts[at];
        if here != 0 {
            let predicted = board::pattern::pattern_bit(pattern, (s + j / 2) % 3);
            if predicted as u32 == j % 2 {
                count += here;
                weight += weights[at];
            }
        }
    }
    FamilyTerm { count, weight }
}

// The row of one pattern: the term of each short class.
fn fold_row(counts: &[u32], weights: &[f32], from: usize, pattern: u8) -> [FamilyTerm; 3]
    requires { Six from counts.now weights.now }
    ensures { result ≡ row (places_n from counts.now) (places_f from weights.now) pattern }
{
    let a = fold_term(counts, weights, from, pattern, 0);
    let b = fold_term(counts, weights, from, pattern, 1);
    let c = fold_term(counts, weights, from, pattern, 2);
    [a, b, c]
}

// The table of terms of the six groups from `from` on, a row for each pattern.
pub fn fold_family(counts: &[u32], weights: &[f32], from: usize) -> FamilyTerms
    requires { Six from counts.now weights.now }
    ensures { Terms (places_n from counts.now) (places_f from weights.now) result }
{
    let mut terms = [[FamilyTerm {
        count: 0,
        weight: 0.0,
    }; 3]; 8];
    for pattern in 0..8 {
        terms[pattern] = fold_row(counts, weights, from, pattern as u8);
    }
    terms
}
