// Adding terms at some places of the room: to one place, to the three cells of a class, to four neighbours.
ghost use Rattle.std.specs.Prelude.{◌≡◌, [], ◌∷◌, ◌+◌, ◌<◌, ◌^◌, length, get_or, set};
ghost use Rattle.std.specs.Float.{nan, binary32};
ghost use Rattle.std.specs.Float.Ieee.{add};
ghost use Rattle.cells.specs.Credit.{stepped, term_in, CountsFit, CountsAdded, WeightsFit, WeightsAdded};

use terms::FamilyTerm;

// Adds x to the count at place k.
fn add_count(counts: &mut [u32], k: usize, x: u32)
    requires { (k < length counts.old) × (get_or counts.old k 0 + x < 2 ^ 32) }
    ensures { counts.new ≡ set counts.old k (get_or counts.old k 0 + x) }
{
    counts[k] += x;
}

// Adds x to the weight at place k.
fn add_weight(weights: &mut [f32], k: usize, x: f32)
    requires { k < length weights.old }
    ensures { weights.new ≡ set weights.old k (add binary32 (get_or weights.old k nan) x) }
{
    weights[k] += x;
}

// Adds a row's counts to the three cells of a class, which stand from k on, one step apart.
pub fn add_class_counts(counts: &mut [u32], k: usize, step: usize, row: [FamilyTerm; 3])
    requires { CountsFit (stepped k step) (term_in row) 3 counts.old }
    ensures { CountsAdded (stepped k step) (term_in row) 3 counts.old counts.new }
{
    let a = row[0];
    let b = row[1];
    let c = row[2];
    add_count(counts, k, a.count);
    add_count(counts, k + step, b.count);
    add_count(counts, k + 2 * step, c.count);
}

// Adds a row's weights to the three cells of a class.
pub fn add_class_weights(weights: &mut [f32], k: usize, step: usize, row: [FamilyTerm; 3])
    requires { WeightsFit (stepped k step) (term_in row) 3 weights.old }
    ensures { WeightsAdded (stepped k step) (term_in row) 3 weights.old weights.new }
{
    let a = row[0];
    let b = row[1];
    let c = row[2];
    add_weight(weights, k, a.weight);
    add_weight(weights, k + step, b.weight);
    add_weight(weights, k + 2 * step, c.weight);
}

// Adds the counts of four terms to four neighbours, from k on.
pub fn add_four_counts(
    counts: &mut [u32],
    k: usize,
    a: FamilyTerm,
    b: FamilyTerm,
    c: FamilyTerm,
    d: FamilyTerm,
)
    requires { CountsFit (stepped k 1) (term_in (a ∷ b ∷ c ∷ d ∷ [])) 4 counts.old }
    ensures { CountsAdded (stepped k 1) (term_in (a ∷ b ∷ c ∷ d ∷ [])) 4 counts.old counts.new }
{
    add_count(counts, k, a.count);
    add_count(counts, k + 1, b.count);
    add_count(counts, k + 2, c.count);
    add_count(counts, k + 3, d.count);
}

// Adds the weights of four terms to four neighbours.
pub fn add_four_weights(
    weights: &mut [f32],
    k: usize,
    a: FamilyTerm,
    b: FamilyTerm,
    c: FamilyTerm,
    d: FamilyTerm,
)
    requires { WeightsFit (stepped k 1) (term_in (a ∷ b ∷ c ∷ d ∷ [])) 4 weights.old }
    ensures { WeightsAdded (stepped k 1) (term_in (a ∷ b ∷ c ∷ d ∷ [])) 4 weights.old weights.new }
{
    add_weight(weights, k, a.weight);
    add_weight(weights, k + 1, b.weight);
    add_weight(weights, k + 2, c.weight);
    add_weight(weights, k + 3, d.weight);
}
