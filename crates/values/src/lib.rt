// Tables of values, of C-15's exact mode: a cell's value is its hits · 2^38 and its weight in units, in one number, so that the greater value has more hits, or as many and more weight.
#![tactic(auto)]

pub mod table; // one table: its first best cell, what ties with it, and its second-best cell by hits
pub mod origin; // two tables: the row-major first origin of greatest value
