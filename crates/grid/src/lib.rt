// Cells and origins over both periods: the key of the origin that two cells name, and the first origin over the pairs of best cells.
#![tactic(auto)]

pub mod origin; // two tables: the row-major first origin over the pairs of best cells
