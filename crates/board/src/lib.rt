// What the board predicts, as definitions: the eight transforms, where an edge is looked up, and which bit the pattern tables give there. Its code: edges by value and the pattern tables.
#![tactic(auto)]

pub mod edge; // an edge, its lookup and a placing, by value
pub mod list; // the columns of a list
pub mod pattern; // bits of patterns, and a part of a lent table
