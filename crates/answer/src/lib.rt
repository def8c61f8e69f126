// What the entry points answer: types alone, and no function.
#![tactic(auto)]

use refusals::Refusal;

// A transform by number, with an origin on the board.
#[derive(Clone, Copy)]
pub struct Square {
    pub transform: u8,
    pub row: u32,
    pub col: u32,
}

// What a found hard answer holds: the square that the camera faces, how well the logical list fits there, and the best competitor. Whatever counts edges is a whole number and says so by its name.
#[derive(Clone, Copy)]
pub struct Decoded {
    pub square: Square,
    pub hits: u32,
    pub edges: u32,
    pub weighted_score: f32,
    pub error_rate: f32,
    pub mean_confidence: f32,
    pub best_score: f32,
    pub runner_up: Square,
    pub runner_up_hits: u32,
    pub margin_hits: u32,
}

// The answer of hard decode.
pub type Answer = Result<Decoded, Refusal>;

// What a found soft answer holds: the square, how well the physical list fits there, the two best scores, which are log likelihoods, with the placing that has the second, and the best competitor by
// hits on the logical list. The second by likelihood and the runner-up by hits may be two squares.
#[derive(Clone, Copy)]
pub struct SoftDecoded {
    pub square: Square,
    pub hits: u32,
    pub edges: u32,
    pub weighted_score: f32,
    pub error_rate: f32,
    pub mean_confidence: f32,
    pub best_score: f32,
    pub second: Square,
    pub second_score: f32,
    pub margin: f32,
    pub runner_up: Square,
    pub runner_up_hits: u32,
}

// The answer of soft decode.
pub type SoftAnswer = Result<SoftDecoded, Refusal>;

// The answer of either decoder, for those who tell of both.
#[derive(Clone, Copy)]
pub enum AnyAnswer {
    Hard(Decoded),
    Soft(SoftDecoded),
    Refused(Refusal),
}

// How a list fits one known placing: its edges and hits, misses over edges, and the mean confidence of the hits.
#[derive(Clone, Copy)]
pub struct MatchStats {
    pub edges: u32,
    pub hits: u32,
    pub error_rate: f32,
    pub mean_confidence: f32,
}

// The answer of match statistics.
pub type StatsAnswer = Result<MatchStats, Refusal>;
