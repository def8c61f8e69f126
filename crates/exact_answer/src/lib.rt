// What decode_exact answers (request C-15): types alone, and no function. Weights are whole numbers of units, and a unit is a confidence of 2^-24.
#![tactic(auto)]

use answer::Square;
use refusals::Refusal;

// What a found exact answer holds: the square that the camera faces, how many of the logical list's edges are hits there, their weight in units and what all edges of that list weigh together,
// the share of misses, and the best competitor with its hits and its weight. Weights add without rounding; there is no f32 score.
#[derive(Clone, Copy)]
pub struct ExactDecoded {
    pub square: Square,
    pub hits: u32,
    pub edges: u32,
    pub weight: u64,
    pub total: u64,
    pub error_rate: f32,
    pub runner_up: Square,
    pub runner_up_hits: u32,
    pub runner_up_weight: u64,
}

// The answer of exact decode.
pub type ExactAnswer = Result<ExactDecoded, Refusal>;
