// What the engine without tables answers: types alone, and no function.
#![tactic(auto)]

use answer::Square;
use refusals::Refusal;

// What is found on one list: the square that the camera faces with its hits, and the first of the other placings with most hits.
#[derive(Clone, Copy)]
pub struct Located {
    pub square: Square,
    pub hits: u32,
    pub runner_up: Square,
    pub runner_up_hits: u32,
}

// The answer of the engine without tables.
pub type LocateAnswer = Result<Located, Refusal>;
