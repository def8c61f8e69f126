// What the test of one placing against the error limit answers: types alone, and no function.
#![tactic(auto)]

use refusals::Refusal;

// Whether a placing of a list is within the error limit, and how many of its edges were read to know it.
#[derive(Clone, Copy)]
pub struct LimitTest {
    pub within: bool,
    pub read: u32,
}

// The answer of the test.
pub type WithinAnswer = Result<LimitTest, Refusal>;
