// The early refusals of a hard call; of each entry point the definitions, and what an accepted call is known to be.
#![tactic(auto)]

pub mod call; // what a hard and a soft call are given
pub mod refusal; // the early refusals of a hard call
