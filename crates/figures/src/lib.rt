// The figures of one placing of a list: the share of misses, the mean of the hits, the lead over the runner-up and the gate; and a list's total confidence.
#![tactic(auto)]

ghost use Rattle.std.specs.Prelude.{◌≡◌, ◌-◌, ◌≤◌, length};
ghost use Rattle.figures.specs.Figures.{rate_of, mean_of, confidence_to};
ghost use Rattle.figures.specs.Gate.{passed};

// How a placing fits a list: its hits, and the confidences of the hits added.
#[derive(Clone, Copy)]
pub struct Fit {
    pub hits: u32,
    pub weight: f32,
}

// The share of misses, by one division.
pub fn rate(edges: u32, hits: u32) -> f32
    requires { (hits ≤ edges) × (edges ≤ 8192) }
    ensures { result ≡ rate_of edges hits }
{
    let misses = edges - hits;
    misses as f32 / edges as f32
}

// The sum of the hits' confidences over the hits; 0 for no hits.
pub fn mean(hits: u32, weight: f32) -> f32
    requires { hits ≤ 8192 }
    ensures { result ≡ mean_of hits weight }
{
    if hits == 0 {
        return 0.0;
    }
    weight / hits as f32
}

// a minus b, not below 0.
pub fn margin(a: u32, b: u32) -> u32
    ensures { result ≡ a - b }
{
    a.saturating_sub(b)
}

// Whether a placing of `best` hits among `edges` edges is ahead of the runner-up's hits by more than its own misses.
pub fn passes(edges: u32, best: u32, next: u32) -> bool
    ensures { result ≡ passed edges best next }
{
    margin(best, next) > margin(edges, best)
}

// The confidences of a list added, in list order from 0.
pub fn total_confidence(confidences: &[f32]) -> f32
    ensures { result ≡ confidence_to confidences.now (length confidences.now) }
{
    let mut total: f32 = 0.0;
    for confidence in confidences {
        total += *confidence;
    }
    total
}
