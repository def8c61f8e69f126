// The best cell of one table by count and then by weight, how many cells tie with it, and the second best.
#![tactic(auto)]

pub mod lex; // one table: the largest count, then the largest weight, how many cells have them, and the second-best cell
pub mod first; // the first of the best cells of a table, whatever a cell holds
pub mod around; // what stands around a cell that no other beats
