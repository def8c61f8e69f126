// One transform of a list, folded into the scan: its best origin by its tables, its runner-up, and the view of its four tables.
#![tactic(auto)]

pub mod transform; // one transform's tables folded into the scan
pub mod view; // the four tables of a transform as one view
