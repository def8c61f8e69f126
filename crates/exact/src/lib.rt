// C-15's exact mode on one list: the values of each listed transform, the placing of most hits and then most weight, and its runner-up.
#![tactic(auto)]

pub mod select; // the selection on one list: values built and folded for each transform
