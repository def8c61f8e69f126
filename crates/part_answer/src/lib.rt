// What decode_part answers (request C-20): types alone, and no function. Weights are whole numbers of units, and a unit is a confidence of 2^-24.
#![tactic(auto)]

use answer::Square;
use refusals::Refusal;

// The best competitor with its hits and its weight. None is shown where the part has one origin and one transform was listed: then there is no other placing.
pub type PartRunnerUp = Option<(Square, u32, u64)>;

// What a found answer holds: the square of the part that the camera faces, how many of the logical list's edges are hits there, their weight in units and what all edges of that list weigh
// together, the share of misses, and the best competitor of the part, where there is one.
#[derive(Clone, Copy)]
pub struct PartDecoded {
    pub square: Square,
    pub hits: u32,
    pub edges: u32,
    pub weight: u64,
    pub total: u64,
    pub error_rate: f32,
    pub runner_up: PartRunnerUp,
}

// The answer of decode over a part.
pub type PartAnswer = Result<PartDecoded, Refusal>;
