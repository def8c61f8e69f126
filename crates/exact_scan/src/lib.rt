// The scan over a list's transforms by value, for C-15's exact mode: the kept placing of greatest value, a summary of each list position, and what the scan comes to.
#![tactic(auto)]

pub mod kept; // what the scan keeps, and what a selection comes to
pub mod fold; // one transform's two tables of values, folded into the scan
pub mod finish; // the winner within the limit, and its runner-up
