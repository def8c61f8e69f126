// Hard selection: the best cells of each table, the best origin, the candidates of the listed transforms, and the runner-up.
#![tactic(auto)]

pub mod select; // the selection on one list: tables built and folded for each transform
