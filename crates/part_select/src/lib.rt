// C-20 on one list: the values of each listed transform, the winner among the placings of the part, and its runner-up, where there is one.
#![tactic(auto)]

pub mod kept; // what a selection over a part comes to
pub mod finish; // the winner within the limit, and its runner-up
pub mod select; // the selection on one list
