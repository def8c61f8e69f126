// Match statistics: how a list fits one known placing.
#![tactic(auto)]

pub mod stats; // match statistics of one known placing
