// The scan over a list's transforms as one record by value: the kept candidate, a summary of each list position, the winner and its runner-up.
#![tactic(auto)]

pub mod record; // the steps of the scan record: a candidate offered, a transform added, the winner and its runner-up read off
pub mod scan; // what the scan record holds: summaries, the kept candidate, the runner-up and the choice
