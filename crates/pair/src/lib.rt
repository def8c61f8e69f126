// The two best placings of one transform by likelihood sums: the winner and its second, from the cells of largest sum of each table.
#![tactic(auto)]

pub mod pair; // two tables: the winner of a transform and its second
