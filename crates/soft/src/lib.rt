// Soft selection: the tables of each listed transform in turn, its two best placings offered, and the two best of the list.
#![tactic(auto)]

mod record; // the steps of the scan record: a candidate offered, a transform folded in
pub mod select; // the selection on one list: sums built and folded for each transform
