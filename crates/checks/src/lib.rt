// Where a coordinate, a likelihood or the size of a list leaves its range.
#![tactic(auto)]

pub mod check; // where a list leaves its range
