// What the exact scan keeps of the list positions so far, and what an exact selection comes to, by value.
use board::edge::Placing;
use refusals::Refusal;
use scan::scan::{HardScan, RunnerUp};

// A placing with its value: its hits · 2^38, and its weight in units.
#[derive(Clone, Copy)]
pub struct ExactCandidate {
    pub value: u64,
    pub placing: Placing,
}

// What is kept of the placings so far: nobody before the first transform.
pub type ExactKept = Option<ExactCandidate>;

// Up to eight transforms: their summaries and how many there are, as document 01's scan holds them (that scan keeps nobody), and what is kept.
#[derive(Clone, Copy)]
pub struct ExactScan {
    pub positions: HardScan,
    pub best: ExactKept,
}

// The winner of a list: its hits, its weight in units, and where it is.
#[derive(Clone, Copy)]
pub struct ExactWinner {
    pub hits: u32,
    pub weight: u64,
    pub placing: Placing,
}

// What an exact selection comes to: refused (no confidence, nothing within the limit), or the winner with its runner-up.
pub type ExactSelection = Result<(ExactWinner, RunnerUp), Refusal>;
