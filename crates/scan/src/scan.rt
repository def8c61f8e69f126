// What a selection is asked and what it keeps, by value: a summary of each listed transform, the candidate and the runner-up.
use board::edge::Placing;

// What a selection on one list is asked: how many edges it has, their total confidence, and the share of misses that a candidate may have.
#[derive(Clone, Copy)]
pub struct Asked {
    pub edges: u32,
    pub confidence: f32,
    pub error_limit: f32,
}

// An origin of a transform, by number, that competes with the winner: its hits, and where it is.
#[derive(Clone, Copy)]
pub struct RunnerUp {
    pub hits: u32,
    pub row: u32,
    pub col: u32,
    pub transform: u8,
}

// One transform: its best origin, which competes with the winner of another list position, and the runner-up within the transform.
#[derive(Clone, Copy)]
pub struct TransformSummary {
    pub best: RunnerUp,
    pub within: RunnerUp,
}

// A placing with its hits, its weight and its score.
#[derive(Clone, Copy)]
pub struct Candidate {
    pub hits: u32,
    pub score: f32,
    pub weight: f32,
    pub placing: Placing,
}

// What is kept of the candidates so far.
pub type Kept = Option<Candidate>;

// Up to eight transforms: their summaries, how many there are, and the kept candidate.
#[derive(Clone, Copy)]
pub struct HardScan {
    pub summaries: [TransformSummary; 8],
    pub count: usize,
    pub best: Kept,
}

// What a list of transforms comes to before the gate: no candidate, or a winner with its runner-up.
pub type Choice = Option<(Candidate, RunnerUp)>;
