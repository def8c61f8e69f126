// A run of classes: class i reads pattern i of the part, and its three terms are added to its three cells. Horizontal classes go two at a time and vertical
// ones four at a time, neighbours together, because six stores to six places far apart are what a run costs.
ghost use Rattle.std.specs.Prelude.{[], ◌∷◌, ◌*◌, ◌/◌};
ghost use Rattle.cells.specs.Credit.{four_place, four_term, CountsFit, CountsAdded, WeightsFit, WeightsAdded, RunReady, RunCells, RunCredited};

use crate::add::{add_class_counts, add_class_weights, add_four_counts, add_four_weights};
use terms::{FamilyTerm, FamilyTerms};

// A run, one class at a time.
fn credit_singles(
    counts: &mut [u32],
    weights: &mut [f32],
    terms: FamilyTerms,
    part: &[u8],
    n: usize,
    at: usize,
    stride: usize,
    across: usize,
)
    requires { RunReady terms part.now n at stride across counts.old weights.old }
    ensures { RunCredited terms part.now n at stride across counts.old counts.new weights.old weights.new }
{
    for i in 0..n {
        let pattern = part[i] as usize;
        let row = terms[pattern];
        let k = at + i * stride;
        add_class_counts(counts, k, across, row);
        add_class_weights(weights, k, across, row);
    }
}

// Horizontal classes, two at a time; an odd one is left.
fn credit_pairs(
    counts: &mut [u32],
    weights: &mut [f32],
    terms: FamilyTerms,
    part: &[u8],
    n: usize,
    at: usize,
)
    requires { RunReady terms part.now n at 3 1 counts.old weights.old }
    ensures { RunCells terms part.now at 3 1 (n / 2 * 2 * 3) counts.old counts.new weights.old weights.new }
{
    for i in 0..n / 2 {
        let class = i * 2;
        let p = part[class] as usize;
        let q = part[class + 1] as usize;
        let a = terms[p];
        let b = terms[q];
        let k = at + class * 3;
        add_class_counts(counts, k, 1, a);
        add_class_counts(counts, k + 3, 1, b);
        add_class_weights(weights, k, 1, a);
        add_class_weights(weights, k + 3, 1, b);
    }
}

// Four vertical classes with the rows a, b, c and d; the first one's cells stand from k on.
fn credit_four(
    counts: &mut [u32],
    weights: &mut [f32],
    k: usize,
    across: usize,
    a: [FamilyTerm; 3],
    b: [FamilyTerm; 3],
    c: [FamilyTerm; 3],
    d: [FamilyTerm; 3],
)
    requires counts_fit { CountsFit (four_place k across) (four_term (a ∷ b ∷ c ∷ d ∷ [])) 12 counts.old }
    requires weights_fit { WeightsFit (four_place k across) (four_term (a ∷ b ∷ c ∷ d ∷ [])) 12 weights.old }
    ensures { CountsAdded (four_place k across) (four_term (a ∷ b ∷ c ∷ d ∷ [])) 12 counts.old counts.new × WeightsAdded (four_place k across) (four_term (a ∷ b ∷ c ∷ d ∷ [])) 12 weights.old weights.new }
{
    let a0 = a[0];
    let b0 = b[0];
    let c0 = c[0];
    let d0 = d[0];
    let a1 = a[1];
    let b1 = b[1];
    let c1 = c[1];
    let d1 = d[1];
    let a2 = a[2];
    let b2 = b[2];
    let c2 = c[2];
    let d2 = d[2];
    add_four_counts(counts, k, a0, b0, c0, d0);
    add_four_counts(counts, k + across, a1, b1, c1, d1);
    add_four_counts(counts, k + 2 * across, a2, b2, c2, d2);
    add_four_weights(weights, k, a0, b0, c0, d0);
    add_four_weights(weights, k + across, a1, b1, c1, d1);
    add_four_weights(weights, k + 2 * across, a2, b2, c2, d2);
}

// Vertical classes, four at a time; up to three are left.
fn credit_fours(
    counts: &mut [u32],
    weights: &mut [f32],
    terms: FamilyTerms,
    part: &[u8],
    n: usize,
    at: usize,
    across: usize,
)
    requires { RunReady terms part.now n at 1 across counts.old weights.old }
    ensures { RunCells terms part.now at 1 across (n / 4 * 4 * 3) counts.old counts.new weights.old weights.new }
{
    for i in 0..n / 4 {
        let class = i * 4;
        let p = part[class] as usize;
        let q = part[class + 1] as usize;
        let r = part[class + 2] as usize;
        let s = part[class + 3] as usize;
        let a = terms[p];
        let b = terms[q];
        let c = terms[r];
        let d = terms[s];
        credit_four(counts, weights, at + class, across, a, b, c, d);
    }
}

// Credits a run of n classes: the first class's cells stand at `at` and every `across` places, the next class's `stride` places further on.
pub fn credit_run(
    counts: &mut [u32],
    weights: &mut [f32],
    terms: FamilyTerms,
    part: &[u8],
    n: usize,
    at: usize,
    stride: usize,
    across: usize,
)
    requires { RunReady terms part.now n at stride across counts.old weights.old }
    ensures { RunCredited terms part.now n at stride across counts.old counts.new weights.old weights.new }
{
    if stride == 3 {
        credit_pairs(counts, weights, terms, part, n, at);
        let done = n / 2 * 2;
        credit_singles(
            counts,
            weights,
            terms,
            &part[done..],
            n % 2,
            at + done * stride,
            stride,
            across,
        );
    } else {
        credit_fours(counts, weights, terms, part, n, at, across);
        let done = n / 4 * 4;
        credit_singles(
            counts,
            weights,
            terms,
            &part[done..],
            n % 4,
            at + done * stride,
            stride,
            across,
        );
    }
}
