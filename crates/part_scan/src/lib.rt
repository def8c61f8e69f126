// C-20: the origins of a part, read one by one from a transform's two tables of values, in the order of row number and then column number.
#![tactic(auto)]

pub mod kept; // the winner and the runner-up of the placings so far
pub mod walk; // the origins of a part, offered in order
