// The likelihood sums of one transform, in room that the caller lends: groups, terms and cells as in `tables`, of whole numbers.
#![tactic(auto)]

pub mod sums; // the likelihood sums of one transform
