// The two best placings of a list by likelihood as one record by value, and how far the first is ahead.
#![tactic(auto)]

pub mod margin; // how far the best candidate is ahead of the second, per edge
pub mod slots; // what the scan record holds: the two best candidates of the transforms so far
